ghost use Rattle.std.specs.Prelude.{◌≡◌, ◌≤◌, ℕ, IfErr, List};
ghost use Rattle.im_typed.specs.Runs.{State};
ghost use Rattle.im_eval_store.specs.Shown.{shown};
ghost use Rattle.im_eval_machine.specs.Settings.{AreLayoutsOf, setting_of};
ghost use Rattle.im_eval_machine.specs.Shown.{IsIn};
ghost use Rattle.im_eval_machine.specs.declared.here.Here.{Here};
ghost use Rattle.im_eval_machine.specs.declared.stopped.Stopped.TheVariants.{OutOfMemory};
ghost use Rattle.im_eval_tasks.specs.Stack.{place_goes};
ghost use Rattle.im_eval_tasks.specs.declared.tasks.Task.{Task};
ghost use Rattle.im_eval_tasks.specs.declared.tasks.Task.TheVariants as task;
ghost use Rattle.im_eval_steps.specs.Going.{Goes, follows, types_of};

use crate::change::increment;
use im_eval_machine::{Code, Found, Machine, Stopped, before_change, member, read_at, read_for};
use im_eval_store::Value;
use im_eval_tasks::{At, Next, Now, Operand, Task, Whole, begin_store};
use std::alloc::Global;

/// What is done at a place.
pub fn resume_at<'p>(
    alloc: Global,
    code: Code<'p>,
    machine: &mut Machine<'p>,
    at: At<'p>,
    place: Value,
) -> Result<Next<'p>, Stopped>
    requires { AreLayoutsOf code.prog.now code.layouts.now }
    ensures fuel { machine.new.fuel ≤ machine.old.fuel }
    ensures goes { (n : ℕ) (here : Here) (ts : List Task) (s : State) → IsIn machine.old s
        → Goes code.entry n here ts result machine.new (place_goes (types_of code.entry)
        (setting_of code.entry) n here (task.At at.entry) (follows code.entry n here ts)
        (shown place) s) }
{
    match at {
        At::Read(access) => {
            let found = read_at(alloc, code, machine, access, place)?;
            Ok(Next::Just(Now::Value(found)))
        }
        At::Address => Ok(Next::Just(Now::Value(Found::One(place)))),
        At::Assign(access, value) => Ok(begin_store(access, place, value)),
        At::Source { access, target } => {
            let found = read_for(alloc, code, machine, access, target, place)?;
            let store = Whole::Store {
                access,
                place: target,
            };
            Ok(Next::Before(Now::Value(found), Task::Whole(store)))
        }
        At::Update(change, by) => {
            let before = before_change(machine, change, place)?;
            let operand = Operand::Change {
                place,
                change,
                before,
            };
            Ok(Next::Before(Now::Evaluate(by), Task::Operand(operand)))
        }
        At::Increment(change, old) => {
            let value = increment(machine, change, old, place)?;
            Ok(Next::Just(Now::Value(Found::One(value))))
        }
    }
}

/// The place of a member.
pub fn resume_member<'p>(
    code: Code<'p>,
    machine: &Machine<'p>,
    offset: u32,
    whole: Value,
) -> Result<Next<'p>, Stopped>
    ensures goes { (n : ℕ) (here : Here) (ts : List Task) (s : State) → IsIn machine.now s
        → Goes code.entry n here ts result machine.now (place_goes (types_of code.entry)
        (setting_of code.entry) n here (task.Member offset) (follows code.entry n here ts)
        (shown whole) s) }
    ensures spared { IfErr result (λ stop. stop ≡ OutOfMemory → ⊥) }
{
    Ok(Next::Just(Now::At(member(machine, offset, whole)?)))
}
