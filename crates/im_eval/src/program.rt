ghost use Rattle.std.specs.Prelude.{◌≡◌, ◌≤◌, ℕ, [], IfOk};
ghost use Rattle.im_typed.specs.Frames.{setting};
ghost use Rattle.im_typed.specs.ProgramOf.{program_of};
ghost use Rattle.im_typed.specs.Programs.{called, calls_of, meaning, outcome_of, run_of_main};
ghost use Rattle.im_typed.specs.Runs.{State};
ghost use Rattle.im_typed.specs.Typing.{IsWellTyped};
ghost use Rattle.im_eval_machine.specs.Endings.{EndLive, told};
ghost use Rattle.im_eval_machine.specs.Settings.{AreLayoutsOf, HasKnownTypes, setting_of};
ghost use Rattle.im_eval_machine.specs.Shown.{Ends, IsIn, values};
ghost use Rattle.im_eval_tasks.specs.Stack.{pending, runs};
ghost use Rattle.im_eval_steps.specs.Going.{types_of};
ghost use Rattle.im_eval.specs.Settings.{small_setting};

use crate::run::Run;
use crate::step::{push_next, step};
use crate::{bytes_law, conclude};
use im_eval_machine::{Code, Found, Here, Outcome, Stopped, layouts_of, machine_of};
use im_eval_steps::enter_function;
use im_eval_tasks::Now;
use im_num::{NoMemory, beyond_memory};
use im_typed::{Frames, Prog};
use std::alloc::Global;

/// Does all that is to do. No run on a real machine takes as many steps as this may.
fn finish<'p>(
    alloc: Global,
    code: Code<'p>,
    run: &mut Run<'p>,
    first: Now<'p>,
) -> Result<Found, Stopped>
    requires { AreLayoutsOf code.prog.now code.layouts.now }
    ensures { (n : ℕ) (s : State) → IsIn run.old.machine s → s.fuel ≤ n
        → Ends values result run.new.machine (runs (types_of code.entry) (setting_of code.entry) n
        run.old.here (pending run.old.tasks.items) first.entry s) }
{
    let mut now = first;
    'steps: for _ in 0..u64::MAX {
        now = match now {
            Now::Value(found) if run.tasks.is_empty() => return Ok(found),
            other => step(alloc, code, run, other)?,
        };
    }
    Err(Stopped::from(beyond_memory()))
}

/// The run of `main`, where nothing else is to do.
fn run_main<'p>(alloc: Global, code: Code<'p>, run: &mut Run<'p>) -> Result<Found, Stopped>
    requires laid_out { AreLayoutsOf code.prog.now code.layouts.now }
    requires empty { run.old.tasks.items ≡ [] }
    ensures { let g = setting_of code.entry in (n : ℕ) (s : State) → IsIn run.old.machine s
        → s.fuel ≤ n → Ends values result run.new.machine
        (called g (calls_of g n) n g.prog.main [] s) }
{
    let main = code.prog.main;
    let next = enter_function(alloc, code, &mut run.machine, &mut run.here, main, &[])?;
    let first = push_next(run, next)?;
    finish(alloc, code, run, first)
}

/// What a program does on an input, with frames, a stack and an output of so many bytes.
fn evaluated(
    alloc: Global,
    prog: &Prog,
    frames: &[u32],
    stack: u32,
    cap: u32,
    input: &[u8],
    fuel: u64,
) -> Result<Outcome, NoMemory>
    requires { HasKnownTypes prog.now }
    ensures { let g = small_setting (program_of prog.now) frames.now stack cap in
        IfOk result (λ outcome.
        EndLive (program_of prog.now).statics (run_of_main g fuel input.now fuel)
        → outcome_of g (run_of_main g fuel input.now fuel) ≡ told outcome) }
{
    let layouts = layouts_of(alloc, prog)?;
    let code = Code {
        prog,
        layouts: &layouts,
        frames,
        stack,
        capacity: cap,
    };
    let machine = machine_of(alloc, code, input, fuel)?;
    let here = Here {
        activation: 0,
        depth: 0,
        first: 0,
        level: 0,
    };
    let mut run = Run {
        machine,
        here,
        tasks: Vec::new(alloc),
    };
    let end = run_main(alloc, code, &mut run);
    conclude(alloc, code, run.machine, end)
}

/// What a program does on an input (C11 5.1.2.3), with frames of so many bytes, in the order of its
/// functions, a stack and an output of so many bytes, and so much fuel: each call but the start of
/// `main`, each turn of a loop, each `getchar` and each `putchar` takes a unit. It takes memory for
/// what lives and what is to be done.
pub fn eval_framed(
    alloc: Global,
    prog: &Prog,
    frames: &[u32],
    stack: u32,
    cap: u32,
    input: &[u8],
    fuel: u64,
) -> Result<Outcome, NoMemory>
    requires typed { IsWellTyped (program_of prog.now) }
    requires known { HasKnownTypes prog.now }
    ensures { let g = program_of prog.now in IfOk result (λ outcome. told outcome ≡ meaning
        (record { prog = g; frames = frames.now; stack = stack; capacity = cap }) input.now fuel) }
{
    bytes_law(input);
    evaluated(alloc, prog, frames, stack, cap, input, fuel)
}

/// The same with the frames that a table has, by the names of the functions.
pub fn eval(
    alloc: Global,
    prog: &Prog,
    frames: &Frames,
    stack: u32,
    cap: u32,
    input: &[u8],
    fuel: u64,
) -> Result<Outcome, NoMemory>
    requires typed { IsWellTyped (program_of prog.now) }
    requires known { HasKnownTypes prog.now }
    ensures { IfOk result (λ outcome. told outcome ≡ meaning
        (setting (program_of prog.now) frames.now.frames.items stack cap) input.now fuel) }
{
    let sizes = frames.sizes(alloc, &prog.funcs)?;
    eval_framed(alloc, prog, &sizes, stack, cap, input, fuel)
}
