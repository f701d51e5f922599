ghost use Rattle.im_compile.specs.Passed.{IsSource};

use crate::faults::tell_fault;
use crate::outcomes::{tell_ending, tell_outcome};
use im_block_run::{Setting, run};
use im_driver::{Compiled, Options, compile_whole};
use im_eval::{Outcome, eval_framed};
use im_lower::lower;
use im_trial::{Case, Row, Stop, Texts};
use im_typed::{Frame, Prog};
use std::alloc::Global;

/// No program takes as many steps of block code.
const STEPS: u64 = 1_000_000;

const OPTIONS: Options = Options {
    stack: 4096,
    out_cap: 64,
    max_gap: None,
};

fn sizes_of(alloc: Global, frames: &[Frame]) -> Result<Vec<u32>, Stop> {
    let mut sizes = Vec::new(alloc);
    for frame in frames {
        sizes.push(frame.size)?;
    }
    Ok(sizes)
}

// Tells what the program means: how it ends, and all of it.
fn tell_meaning(prog: &Prog, setting: Setting<'_>, fuel: u64, case: &mut Case, whole: &mut Case)
    requires { IsSource prog.now }
{
    match eval_framed(
        case.alloc,
        prog,
        setting.frames,
        setting.stack,
        setting.capacity,
        setting.input,
        fuel,
    ) {
        Ok(outcome) => {
            tell_ending(&outcome, case);
            tell_outcome(&outcome, whole);
        }
        Err(_) => case.end(Stop::Memory),
    }
}

// What the program's block code does, where it ends.
fn run_lowered(
    alloc: Global,
    prog: &Prog,
    setting: Setting<'_>,
    fuel: u64,
) -> Result<Option<Outcome>, Stop>
    requires { IsSource prog.now }
{
    let unit = lower(alloc, prog)?;
    Ok(run(alloc, &unit, setting, fuel, STEPS)?)
}

// Tells what the program's block code does.
fn tell_block_code(prog: &Prog, setting: Setting<'_>, fuel: u64, case: &mut Case)
    requires { IsSource prog.now }
{
    match run_lowered(case.alloc, prog, setting, fuel) {
        Ok(Some(outcome)) => tell_outcome(&outcome, case),
        Ok(None) => case.say(" too many steps"),
        Err(stop) => case.end(stop),
    }
}

// What the program means, and what its block code does where that is something else.
fn tell_both(prog: &Prog, setting: Setting<'_>, fuel: u64, case: &mut Case)
    requires { IsSource prog.now }
{
    let mut meant = Case::new(case.alloc);
    let mut done = Case::new(case.alloc);
    tell_meaning(prog, setting, fuel, case, &mut meant);
    tell_block_code(prog, setting, fuel, &mut done);
    if done.found() != meant.found() {
        case.say("; its block code: ");
        case.say(done.found());
        case.say("; its meaning: ");
        case.say(meant.found());
    }
}

// With the frames that the built code has.
fn tell_framed(whole: &Compiled, input: &[u8], fuel: u64, case: &mut Case)
    requires { IsSource whole.now.prog }
{
    let made = sizes_of(case.alloc, &whole.built.frames.frames);
    let Some(frames) = case.take(made) else {
        return;
    };
    let setting = Setting {
        frames: &frames,
        stack: whole.built.image.stack,
        capacity: whole.built.image.out_cap,
        input,
    };
    tell_both(&whole.prog, setting, fuel, case);
}

/// `meaning`, a name, a source, an input, fuel.
pub(crate) fn meaning(texts: &Texts, row: &Row<'_>, case: &mut Case) {
    let source = case.bytes_of(texts, row, 2);
    let input = case.bytes_of(texts, row, 3);
    let fuel = u64::from(case.small(row.field(4)));
    match compile_whole(case.alloc, &source, OPTIONS) {
        Ok(whole) => tell_framed(&whole, &input, fuel, case),
        Err(fault) => tell_fault(fault, case),
    }
}
