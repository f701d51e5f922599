ghost use Rattle.std.specs.Prelude.{◌≡◌, ℕ, IfErr};
ghost use Rattle.im_store.specs.Access.{at_place, read_cell, taken};
ghost use Rattle.im_store.specs.Checks.{then_};
ghost use Rattle.im_store.specs.Objects.{Store};
ghost use Rattle.im_typed.specs.Program.{Scalar};
ghost use Rattle.im_typed.specs.Values as typed_values;
ghost use Rattle.im_eval_store.specs.Living.{Holds};
ghost use Rattle.im_eval_store.specs.Shown.{Checks, shown};
ghost use Rattle.im_eval_machine.specs.Shown.{IsLook, IsStep, one};
ghost use Rattle.im_eval_machine.specs.Steps.{changes};
ghost use Rattle.im_eval_machine.specs.declared.stopped.Stopped.TheVariants.{OutOfMemory};

use crate::access::{read_scalar, write_scalar};
use crate::machine::Machine;
use crate::operator::{changed, changed_kind};
use crate::stopped::Stopped;
use im_eval_store::{Memory, Value};
use im_num::Kind;
use im_store::{Number, Undefined};
use im_typed::Change;

/// What stands at a place that is to change.
pub fn before_change(machine: &Machine, change: Change, at: Value) -> Result<Value, Stopped>
    ensures look { IsLook shown result machine.now (typed_values.value_in
        (typed_values.read_at (Scalar (typed_values.changed_kind change)) (shown at))) }
    ensures spared { IfErr result (λ stop. stop ≡ OutOfMemory → ⊥) }
{
    Ok(taken_at(&machine.memory, changed_kind(change), at)?)
}

/// What a place has in a cell of a kind, where it is used.
fn taken_at(memory: &Memory, kind: Kind, at: Value) -> Result<Value, Undefined>
    ensures { (last : ℕ) (store : Store) → Holds memory.now last store → Checks result
        (then_ (at_place (shown at) (λ o offset. read_cell store o offset kind)) (taken store)) }
{
    let value = read_scalar(memory, kind, at)?;
    memory.taken(value)
}

/// A place changes by a number, once its old value was read: gives the new value (C11 6.5.16.2).
pub fn change_by(
    machine: &mut Machine,
    change: Change,
    at: Value,
    before: Value,
    by: Number,
) -> Result<Value, Stopped>
    ensures step { IsStep one result machine.old machine.new
        (changes change (shown before) by.value (shown at)) }
    ensures spared { IfErr result (λ stop. stop ≡ OutOfMemory → ⊥) }
{
    let after = changed(&machine.memory, change, before, by)?;
    write_scalar(&mut machine.memory, changed_kind(change), at, after)?;
    Ok(after)
}
