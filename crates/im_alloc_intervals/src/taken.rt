ghost use Rattle.std.specs.Prelude.{◌≡◌, ◌<◌, ◌≤◌, ◌^◌, ◌↔◌, IfOk, IsTrue, length};
ghost use Rattle.im_alloc_intervals.specs.Scans.{IsFreeAt, FindsRegister, FindsSlot, TakesRegister};
ghost use Rattle.im_alloc_intervals.specs.Scans.{TakesSlot, Takes, MayTake};
ghost use Rattle.im_alloc_intervals.specs.Scans.{AreWaiting, last_of as last_of_interval};

use crate::marks::Interval;
use crate::table::Home;
use im_num::NoMemory;
use std::alloc::Global;

/// Up to which position registers and slots are in use, where they are.
#[derive(Drop)]
pub(crate) struct Taken {
    pub(crate) registers: [Option<u64>; 32],
    pub(crate) slots: Vec<u64>,
}

fn last_of(interval: Option<Interval>) -> Option<u64>
    ensures { result ≡ last_of_interval interval }
{
    Some(interval?.last)
}

/// Parameters wait in x10 and on, each up to its last use.
fn waiting(parameters: u32, intervals: &[Option<Interval>]) -> [Option<u64>; 32]
    requires few { parameters ≤ 8 }
    requires within { parameters ≤ length intervals.now }
    ensures { AreWaiting parameters intervals.now result }
{
    let mut registers = [None; 32];
    for parameter in 0..parameters as usize {
        registers[10 + parameter] = last_of(intervals[parameter]);
    }
    registers
}

/// What is in use before the scan.
pub(crate) fn only_waiting(alloc: Global, parameters: u32, intervals: &[Option<Interval>]) -> Taken
    requires few { parameters ≤ 8 }
    requires within { parameters ≤ length intervals.now }
    ensures registers { AreWaiting parameters intervals.now result.registers }
    ensures slots { length result.slots.items ≡ 0 }
{
    Taken {
        registers: waiting(parameters, intervals),
        slots: Vec::new(alloc),
    }
}

fn is_free(until: Option<u64>, position: u64) -> bool
    ensures { IsTrue result ↔ IsFreeAt until position }
{
    match until {
        None => true,
        Some(last) => last < position,
    }
}

/// A call's arguments come into x10 to x17 one by one, so they must not be in these.
fn may_take(register: usize, is_argument: bool) -> bool
    ensures { IsTrue result ↔ MayTake register is_argument }
{
    !is_argument || register < 10 || 17 < register
}

/// The lowest of x9 to x31 that is free at a position.
fn find_register(registers: &[Option<u64>; 32], position: u64, is_argument: bool) -> Option<usize>
    ensures { FindsRegister registers.now position is_argument result }
{
    for register in 9..32 {
        if may_take(register, is_argument) && is_free(registers[register], position) {
            return Some(register);
        }
    }
    None
}

/// The first slot that is free at a position, and was so at the one before: what a line reads and
/// what it sets have slots of their own, since a cut would have to stand between.
fn find_slot(slots: &[u64], position: u64) -> Option<usize>
    ensures { FindsSlot slots.now position result }
{
    for (slot, last) in slots.iter().enumerate() {
        if last.saturating_add(1) < position {
            return Some(slot);
        }
    }
    None
}

fn take_register(
    registers: &mut [Option<u64>; 32],
    interval: Interval,
    is_argument: bool,
) -> Option<u32>
    ensures { TakesRegister interval is_argument registers.old registers.new result }
{
    let found = find_register(registers, interval.first, is_argument)?;
    registers[found] = Some(interval.last);
    Some(found as u32)
}

/// A slot that is free, or a new one.
fn take_slot(slots: &mut Vec<u64>, interval: Interval) -> Result<u32, NoMemory>
    requires { length slots.old.items < 2 ^ 32 }
    ensures { IfOk result (λ slot. TakesSlot interval slots.old.items slots.new.items slot) }
{
    match find_slot(slots, interval.first) {
        Some(slot) => {
            slots[slot] = interval.last;
            Ok(slot as u32)
        }
        None => {
            let slot = slots.len();
            slots.push(interval.last)?;
            Ok(slot as u32)
        }
    }
}

/// A home for a register: a free one of the machine's, unless it must be in a slot or none is free.
pub(crate) fn take(
    taken: &mut Taken,
    interval: Interval,
    is_slotted: bool,
    is_argument: bool,
) -> Result<Home, NoMemory>
    requires { length taken.old.slots.items < 2 ^ 32 }
    ensures { IfOk result (λ home. Takes interval is_slotted is_argument taken.old taken.new home) }
{
    if !is_slotted {
        if let Some(register) = take_register(&mut taken.registers, interval, is_argument) {
            return Ok(Home::Register(register));
        }
    }
    let slot = take_slot(&mut taken.slots, interval)?;
    Ok(Home::Slot(slot))
}
