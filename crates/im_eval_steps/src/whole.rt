ghost use Rattle.std.specs.Prelude.{◌≡◌, ◌≤◌, ℕ, List};
ghost use Rattle.im_typed.specs.Runs.{State};
ghost use Rattle.im_eval_machine.specs.Settings.{AreLayoutsOf, setting_of};
ghost use Rattle.im_eval_machine.specs.Shown.{IsIn, values};
ghost use Rattle.im_eval_machine.specs.declared.here.Here.{Here};
ghost use Rattle.im_eval_tasks.specs.Stack.{value_goes};
ghost use Rattle.im_eval_tasks.specs.declared.tasks.Task.{Task};
ghost use Rattle.im_eval_tasks.specs.declared.tasks.Task.TheVariants as task;
ghost use Rattle.im_eval_steps.specs.Going.{Goes, follows, types_of};

use im_eval_machine::{Code, Found, Machine, Stopped, part_of, used, write_at};
use im_eval_tasks::{Next, Now, Whole};
use std::alloc::Global;

/// What is done with a value, whatever it is.
pub fn resume_whole<'p>(
    alloc: Global,
    code: Code<'p>,
    machine: &mut Machine<'p>,
    whole: Whole<'p>,
    found: Found,
) -> Result<Next<'p>, Stopped>
    requires { AreLayoutsOf code.prog.now code.layouts.now }
    ensures fuel { machine.new.fuel ≤ machine.old.fuel }
    ensures goes { (n : ℕ) (here : Here) (ts : List Task) (s : State) → IsIn machine.old s
        → Goes code.entry n here ts result machine.new (value_goes (types_of code.entry)
        (setting_of code.entry) n here (task.Whole whole.entry) (follows code.entry n here ts)
        (values found) s) }
{
    match whole {
        Whole::Comma(right) => Ok(Next::Just(Now::Evaluate(right))),
        Whole::Discard => Ok(Next::Just(Now::Value(Found::Nothing))),
        Whole::Part { from, access } => {
            let part = part_of(alloc, code, from, access, found)?;
            Ok(Next::Just(Now::Value(part)))
        }
        Whole::Store { access, place } => {
            used(machine, &found)?;
            write_at(code, machine, access, place, &found)?;
            Ok(Next::Just(Now::Value(found)))
        }
    }
}
