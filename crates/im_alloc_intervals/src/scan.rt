ghost use Rattle.std.specs.Prelude.{◌≡◌, ◌<◌, ◌≤◌, ◌^◌, IfOk, OnOk, length};
ghost use Rattle.im_alloc_intervals.specs.Homes.{IsAble, AreHomes};
ghost use Rattle.im_alloc_intervals.specs.Leaves.{NeedsNoSlot};
ghost use Rattle.im_alloc_intervals.specs.Scans.{AreFirst, AreScanned, Gives};
ghost use Rattle.im_alloc_intervals.specs.Tables.{AreFitting};

use crate::starts::starts;
use crate::table::{Home, Homes};
use crate::tables::{Tables, measure};
use crate::taken::{Taken, only_waiting, take};
use im_block::Function;
use im_num::NoMemory;
use std::alloc::Global;

/// Parameters in x10 and on, all else in x31: what never lives nor is set stays there.
fn first_homes(alloc: Global, parameters: u32, count: usize) -> Result<Vec<Home>, NoMemory>
    requires few { parameters ≤ 8 }
    requires within { parameters ≤ count }
    ensures { IfOk result (λ of. AreFirst parameters count of.items) }
{
    let mut of: Vec<Home> = vec![in alloc; Home::Register(31); count]?;
    for parameter in 0..parameters {
        of[parameter as usize] = Home::Register(10 + parameter);
    }
    Ok(of)
}

/// A register that has an interval gets its home.
fn give(
    tables: &Tables,
    register: usize,
    taken: &mut Taken,
    of: &mut Vec<Home>,
) -> Result<(), NoMemory>
    requires fits { AreFitting tables.now }
    requires within { register < length tables.now.intervals.items }
    requires count { length of.old.items ≡ length tables.now.intervals.items }
    requires few { length taken.old.slots.items < 2 ^ 32 }
    ensures { OnOk result (Gives tables.now register taken.old taken.new of.old.items of.new.items) }
{
    if let Some(interval) = tables.intervals[register] {
        let is_slotted = tables.slotted[register];
        let is_argument = tables.arguments[register];
        of[register] = take(taken, interval, is_slotted, is_argument)?;
    }
    Ok(())
}

fn finish(of: Vec<Home>, taken: &Taken) -> Homes
    requires { length taken.now.slots.items < 2 ^ 32 }
    ensures of { result.of ≡ of }
    ensures slots { result.slots ≡ length taken.now.slots.items }
{
    Homes {
        of,
        slots: taken.slots.len() as u32,
    }
}

/// Homes by a linear scan over the intervals.
fn scan(alloc: Global, parameters: u32, tables: &Tables) -> Result<Homes, NoMemory>
    requires fits { AreFitting tables.now }
    requires few { parameters ≤ 8 }
    requires within { parameters ≤ length tables.now.intervals.items }
    ensures { IfOk result (λ homes. AreScanned parameters tables.now homes) }
{
    let starts = starts(alloc, parameters, &tables.intervals)?;
    let mut of = first_homes(alloc, parameters, tables.intervals.len())?;
    let mut taken = only_waiting(alloc, parameters, &tables.intervals);
    for start in &starts {
        give(tables, start.register as usize, &mut taken, &mut of)?;
    }
    Ok(finish(of, &taken))
}

/// The homes of a function's registers. Parameters stay in x10 and on, up to their last uses. What
/// lives across a call, and what enters the function without being a parameter, has a slot; else a
/// register has the lowest of x9 to x31 that none uses whose interval meets its own.
pub fn homes(alloc: Global, function: &Function) -> Result<Homes, NoMemory>
    requires { IsAble function.now }
    ensures homes { IfOk result (λ homes. AreHomes function.now homes) }
    ensures leaf { IfOk result (λ homes. NeedsNoSlot function.now homes.slots) }
{
    let tables = measure(alloc, function)?;
    scan(alloc, function.parameters, &tables)
}
