ghost use Rattle.std.specs.Prelude.{◌≡◌, ◌≤◌, ◌==◌, cond};
ghost use Rattle.im_rv.specs.Steps.{cpu_of};
ghost use Rattle.im_rv.specs.Torn.{torn_of};
ghost use Rattle.im_device.specs.Run.{boot, run};
ghost use Rattle.im_device.specs.Periods.{fresh, powered};
ghost use Rattle.im_emu.specs.Stretch.{begun, change, ended_of, moment_of};

use crate::shows::word_at;
use im_mem::{CODE_START, INDEX, Memory};
use im_power::Period;
use im_rv::step::step;
use im_rv::{Regs, Went, tear};

/// What was done under one stretch of power.
#[derive(Clone, Copy)]
pub struct Stretch {
    pub went: Went,
    /// The instructions that were executed, one that halted or faulted included.
    pub steps: u32,
    /// The steps that changed INDEX, and 1 more where a torn store did.
    pub commits: u64,
}

// The registers as power comes.
fn power_up(junk: u32) -> Regs
    ensures { cpu_of result ≡ boot junk }
{
    Regs {
        pc: CODE_START,
        x: [junk; 32],
    }
}

// 1 where the two words differ.
fn changes(before: u32, after: u32) -> u64
    ensures { result ≡ cond (before == after) 0 1 }
{
    if before == after { 0 } else { 1 }
}

fn stretch_of(went: Went, steps: u32, commits: u64) -> Stretch
    ensures { result ≡ record { went = went; steps = steps; commits = commits } }
{
    Stretch {
        went,
        steps,
        commits,
    }
}

// Executes `n` instructions, or fewer where one halts or faults.
fn run_steps<M: Memory>(regs: &mut Regs, memory: &mut M, n: u32) -> Stretch
    ensures ran { moment_of result (cpu_of regs.new) (M.bytes memory.new) ≡
        run n (begun (cpu_of regs.old) (M.bytes memory.old)) }
    ensures few { result.commits ≤ n }
{
    let mut commits = 0u64;
    let mut index = word_at(memory, INDEX);
    for i in 0..n {
        let went = step(regs, memory);
        let next = word_at(memory, INDEX);
        commits += changes(index, next);
        index = next;
        match went {
            Went::On => {}
            Went::Halted => return stretch_of(Went::Halted, i + 1, commits),
            Went::Faulted(at) => return stretch_of(Went::Faulted(at), i + 1, commits),
        }
    }
    stretch_of(Went::On, n, commits)
}

// Power fails within the next instruction. Answers the commits that this makes.
fn tear_store<M: Memory>(regs: &Regs, memory: &mut M, mask: u32) -> u64
    ensures memory { M.bytes memory.new ≡ torn_of mask (cpu_of regs.now) (M.bytes memory.old) }
    ensures commits { result ≡ change (M.bytes memory.old) (M.bytes memory.new) }
{
    let before = word_at(memory, INDEX);
    tear(regs, memory, mask);
    changes(before, word_at(memory, INDEX))
}

/// One period of power, from power-up on, its repeats left out.
pub fn run_period<M: Memory>(memory: &mut M, period: &Period) -> Stretch
    ensures { ended_of result (M.bytes memory.new) ≡
        powered period.now.n period.now.junk period.now.mask (fresh (M.bytes memory.old)) }
{
    let mut regs = power_up(period.junk);
    let stretch = run_steps(&mut regs, memory, period.n);
    match stretch.went {
        Went::On => {
            let commits = stretch.commits + tear_store(&regs, memory, period.mask);
            stretch_of(Went::On, stretch.steps, commits)
        }
        Went::Halted | Went::Faulted(_) => stretch,
    }
}
