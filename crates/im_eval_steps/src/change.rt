ghost use Rattle.std.specs.Prelude.{◌≡◌, pos, IfErr};
ghost use Rattle.im_typed.specs.Runs.{give};
ghost use Rattle.im_typed.specs.Values.{computes, update};
ghost use Rattle.im_eval_store.specs.Shown.{shown};
ghost use Rattle.im_eval_machine.specs.Shown.{IsStep, one};
ghost use Rattle.im_eval_machine.specs.declared.stopped.Stopped.TheVariants.{OutOfMemory};
ghost use Rattle.im_eval_steps.specs.Going.{changes_to};

use im_eval_machine::{Machine, Stopped, before_change, change_by, number_of};
use im_eval_store::Value;
use im_store::Number;
use im_typed::Change;

/// A place changes by one: gives the old value or the new one (C11 6.5.2.4, 6.5.3.1).
pub(crate) fn increment(
    machine: &mut Machine,
    change: Change,
    old: bool,
    place: Value,
) -> Result<Value, Stopped>
    ensures step { IsStep one result machine.old machine.new
        (update computes change old (give (pos 1)) (shown place)) }
    ensures spared { IfErr result (λ stop. stop ≡ OutOfMemory → ⊥) }
{
    let before = before_change(machine, change, place)?;
    let after = change_by(machine, change, place, before, Number::ONE)?;
    if old { Ok(before) } else { Ok(after) }
}

/// A place changes by the number that a value is, once its old value was read (C11 6.5.16.2).
pub(crate) fn change_to(
    machine: &mut Machine,
    change: Change,
    place: Value,
    before: Value,
    value: Value,
) -> Result<Value, Stopped>
    ensures step { IsStep one result machine.old machine.new
        (changes_to change (shown before) (shown place) (shown value)) }
    ensures spared { IfErr result (λ stop. stop ≡ OutOfMemory → ⊥) }
{
    let by = number_of(value)?;
    change_by(machine, change, place, before, by)
}
