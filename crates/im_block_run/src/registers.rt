ghost use Rattle.std.specs.Prelude.{◌≡◌, ◌==◌, ◌<◌, ◌+◌, ◌-◌, ◌&&◌, ℕ, get_or, length, nat_le};
ghost use Rattle.std.specs.Prelude.{nat_lt, slice_get, IfOk, OnOk, if◌then◌else◌};
ghost use Rattle.im_block.specs.Meaning as meaning;
ghost use Rattle.im_block.specs.Meaning.{kept_by, with_register};
ghost use Rattle.im_eval_store.specs.Shown.{shown};
ghost use Rattle.im_eval_store.specs.declared.value.Value.TheVariants.{Unset};
ghost use Rattle.im_block_run.specs.Shown.{IsFrame};

use crate::state::Frame;
use im_block::{Registers, Unit};
use im_eval_store::Value;
use im_num::NoMemory;
use std::alloc::Global;

/// Room for a register.
fn grow(registers: &mut Vec<Value>, register: usize) -> Result<(), NoMemory>
    ensures room { IfOk result (λ done. register < length registers.new.items) }
    ensures same { (r : ℕ) → get_or registers.new.items r Unset
        ≡ get_or registers.old.items r Unset }
{
    'grow: while registers.len() <= register {
        registers.push(Value::Unset)?;
    }
    Ok(())
}

/// A register has a value.
fn put(registers: &mut Vec<Value>, register: usize, value: Value) -> Result<(), NoMemory>
    ensures { OnOk result ((r : ℕ) → get_or registers.new.items r Unset
        ≡ (if r == register then value else get_or registers.old.items r Unset)) }
{
    grow(registers, register)?;
    registers[register] = value;
    Ok(())
}

/// What a register has.
fn got(registers: &[Value], register: usize) -> Value
    ensures { result ≡ get_or registers.now register Unset }
{
    match registers.get(register) {
        None => Value::Unset,
        Some(value) => *value,
    }
}

/// Registers of which those from `to` on have the values of so many from `first` on.
pub(crate) fn passed(
    alloc: Global,
    registers: &[Value],
    to: u32,
    first: u32,
    count: u32,
) -> Result<Vec<Value>, NoMemory>
    ensures { IfOk result (λ new. (r : ℕ) → get_or new.items r Unset
        ≡ (if nat_le to r && nat_lt r (to + count) then get_or registers.now (first + (r - to)) Unset
        else Unset)) }
{
    let mut new = Vec::new(alloc);
    for number in 0..count as usize {
        put(
            &mut new,
            to as usize + number,
            got(registers, first as usize + number),
        )?;
    }
    Ok(new)
}

impl<'u> Frame<'u> {
    /// What a register has.
    pub fn register(&self, register: u32) -> Value
        ensures { (s : meaning.Frame) → IsFrame self.now s
            → s.registers register ≡ shown result }
    {
        got(&self.registers, register as usize)
    }

    /// A register has a value.
    pub fn set(&mut self, register: u32, value: Value) -> Result<(), NoMemory>
        ensures { OnOk result ((s : meaning.Frame) → IsFrame self.old s → IsFrame self.new
            (record s { registers = with_register s.registers register (shown value) })) }
    {
        put(&mut self.registers, register as usize, value)?;
        Ok(())
    }

    /// A call takes the values of the machine's registers.
    pub fn lose(&mut self, alloc: Global, unit: &Unit)
        ensures { (s : meaning.Frame) → IsFrame self.old s → IsFrame self.new
            (record s { registers = kept_by (slice_get unit.now.functions.items s.function) s.registers }) }
    {
        match unit.functions.get(self.function as usize) {
            None => {}
            Some(function) => match function.registers {
                Registers::Virtual => {}
                Registers::Machine => self.registers = Vec::new(alloc),
            },
        }
    }
}
