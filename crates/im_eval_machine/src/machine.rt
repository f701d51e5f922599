ghost use Rattle.std.specs.Prelude.{◌≡◌, suc, IfErr, IfOk};
ghost use Rattle.im_store.specs.Pointers.{member_at};
ghost use Rattle.im_typed.specs.Runs.{give, in_store, with_fuel};
ghost use Rattle.im_eval_store.specs.Shown.{shown};
ghost use Rattle.im_eval_machine.specs.Shown.{IsLook, IsStep, nothing};
ghost use Rattle.im_eval_machine.specs.declared.stopped.Stopped.TheVariants.{OutOfMemory};

use crate::stopped::Stopped;
use im_eval_store::{Memory, Value};

/// What a run works on.
#[derive(Drop)]
pub struct Machine<'p> {
    pub memory: Memory<'p>,
    /// How many activations there were.
    pub activations: u64,
    /// The bytes of stack in use.
    pub depth: u32,
    /// The input that is left.
    pub input: &'p [u8],
    pub output: Vec<u8>,
    pub fuel: u64,
}

/// Takes a unit of fuel.
pub fn pay(machine: &mut Machine) -> Result<(), Stopped>
    ensures step { IsStep nothing result machine.old machine.new (with_fuel (give tt)) }
    ensures less { IfOk result (λ done. suc machine.new.fuel ≡ machine.old.fuel) }
    ensures spared { IfErr result (λ stop. stop ≡ OutOfMemory → ⊥) }
{
    if machine.fuel == 0 {
        return Err(Stopped::MoreFuel);
    }
    machine.fuel -= 1;
    Ok(())
}

/// The place of a member, so many bytes behind the start of its struct (C11 6.5.2.3).
pub fn member(machine: &Machine, offset: u32, whole: Value) -> Result<Value, Stopped>
    ensures look { IsLook shown result machine.now
        (in_store (λ store. member_at store offset (shown whole))) }
    ensures spared { IfErr result (λ stop. stop ≡ OutOfMemory → ⊥) }
{
    Ok(machine.memory.member(offset, whole)?)
}
