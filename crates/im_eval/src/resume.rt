ghost use Rattle.std.specs.Prelude.{◌≡◌, ◌≤◌, ◌∷◌, ℕ, List};
ghost use Rattle.im_typed.specs.Programs.{leaving};
ghost use Rattle.im_typed.specs.Runs.{State};
ghost use Rattle.im_typed.specs.Runs as meant;
ghost use Rattle.im_eval_store.specs.Shown.{shown};
ghost use Rattle.im_eval_machine.specs.Settings.{AreLayoutsOf};
ghost use Rattle.im_eval_machine.specs.Shown.{IsIn, IsStep, nothing, values};
ghost use Rattle.im_eval_tasks.specs.Found.{flow};
ghost use Rattle.im_eval_tasks.specs.Stack.{Flowed, Placed, Valued};
ghost use Rattle.im_eval_tasks.specs.declared.tasks.Task.{Task};
ghost use Rattle.im_eval_steps.specs.Going.{Goes, follows};

use im_eval_machine::{Code, Found, Here, Machine, Stopped, leave, used};
use im_eval_steps::{
    result_of, resume_at, resume_member, resume_operand, resume_use, resume_whole,
};
use im_eval_store::Value;
use im_eval_tasks::{Caller, Ended, Next, Now, Task, go_after};
use std::alloc::Global;

/// The activation that runs ends, and its caller's goes on.
fn leave_function<'p>(machine: &mut Machine<'p>, here: &mut Here, caller: Caller)
    ensures here { here.new ≡ caller.here }
    ensures left { IsStep nothing (Ok (tt {0})) machine.old machine.new
        (meant.change (leaving here.old.activation caller.depth)) }
{
    leave(machine, *here, caller.depth);
    *here = caller.here;
}

/// A task takes the value of an expression.
pub(crate) fn resume_value<'p>(
    alloc: Global,
    code: Code<'p>,
    machine: &mut Machine<'p>,
    here: &mut Here,
    task: Task<'p>,
    found: Found,
) -> Result<Next<'p>, Stopped>
    requires { AreLayoutsOf code.prog.now code.layouts.now }
    ensures fuel { machine.new.fuel ≤ machine.old.fuel }
    ensures goes { (n : ℕ) (ts : List Task) (s : State) → IsIn machine.old s
        → Goes code.entry n here.new ts result machine.new
        (follows code.entry n here.old (task.entry ∷ ts) (Valued (values found)) s) }
{
    match task {
        Task::Whole(whole) => resume_whole(alloc, code, machine, whole, found),
        Task::Use(usage) => resume_use(code, machine, *here, usage, found),
        Task::At(_) | Task::Member(_) | Task::Rest(_) => Ok(Next::Just(Now::Value(found))),
        Task::Leave(caller) => {
            leave_function(machine, here, caller);
            Ok(Next::Just(Now::Value(found)))
        }
        Task::Operand(operand) => {
            let value = used(machine, &found)?;
            resume_operand(code, machine, operand, value)
        }
    }
}

/// A task takes a place.
pub(crate) fn resume_place<'p>(
    alloc: Global,
    code: Code<'p>,
    machine: &mut Machine<'p>,
    here: &mut Here,
    task: &Task<'p>,
    place: Value,
) -> Result<Next<'p>, Stopped>
    requires { AreLayoutsOf code.prog.now code.layouts.now }
    ensures fuel { machine.new.fuel ≤ machine.old.fuel }
    ensures goes { (n : ℕ) (ts : List Task) (s : State) → IsIn machine.old s
        → Goes code.entry n here.new ts result machine.new
        (follows code.entry n here.old (task.now ∷ ts) (Placed (shown place)) s) }
{
    match task {
        Task::At(at) => resume_at(alloc, code, machine, *at, place),
        Task::Member(offset) => resume_member(code, machine, *offset, place),
        Task::Leave(caller) => {
            leave_function(machine, here, *caller);
            Ok(Next::Just(Now::At(place)))
        }
        Task::Operand(_) | Task::Whole(_) | Task::Use(_) | Task::Rest(_) => {
            Ok(Next::Just(Now::At(place)))
        }
    }
}

/// A task takes the end of a statement.
pub(crate) fn resume_ended<'p>(
    code: Code<'p>,
    machine: &mut Machine<'p>,
    here: &mut Here,
    task: &Task<'p>,
    ended: Ended,
) -> Next<'p>
    ensures fuel { machine.new.fuel ≤ machine.old.fuel }
    ensures goes { (n : ℕ) (ts : List Task) (s : State) → IsIn machine.old s
        → Goes code.entry n here.new ts (Ok result) machine.new
        (follows code.entry n here.old (task.now ∷ ts) (Flowed (flow ended)) s) }
{
    match task {
        Task::Rest(rest) => go_after(*rest, ended),
        Task::Leave(caller) => {
            leave_function(machine, here, *caller);
            Next::Just(Now::Value(result_of(code.prog.main, caller.function, ended)))
        }
        Task::Operand(_) | Task::Whole(_) | Task::Use(_) | Task::At(_) | Task::Member(_) => {
            Next::Just(Now::Ended(ended))
        }
    }
}
