ghost use Rattle.std.specs.Prelude.{◌≡◌, IfOk, length};
ghost use Rattle.std.specs.Prelude.{◌==◌};
ghost use Rattle.im_cut.specs.Blocks.{AreBlank, AreStarts, BeginsWhere, is_turned, turns_to};

use crate::marks::{Marks, nothing};
use im_block::{Block, Exit, Function};
use im_num::NoMemory;
use std::alloc::Global;

/// For each block the marks at its start, as far as they are known before the sweep: a section
/// begins at the entry, and behind each loop edge.
pub(crate) fn start_table(alloc: Global, function: &Function) -> Result<Vec<Marks>, NoMemory>
    ensures starts { IfOk result
        (λ table. AreStarts function.now.entry function.now.blocks.items table.items) }
    ensures len { IfOk result (λ table. length table.items ≡ length function.now.blocks.items) }
{
    let mut table = blank_table(alloc, function.blocks.len())?;
    begin(&mut table, function.entry);
    begin_turned(&mut table, &function.blocks);
    Ok(table)
}

/// Marks of so many places that no path comes to.
fn blank_table(alloc: Global, count: usize) -> Result<Vec<Marks>, NoMemory>
    ensures blank { IfOk result (λ table. AreBlank table.items) }
    ensures len { IfOk result (λ table. length table.items ≡ count) }
{
    let mut table = Vec::new(alloc);
    'places: while table.len() < count {
        table.push(nothing(alloc))?;
    }
    Ok(table)
}

fn begin_turned(table: &mut [Marks], blocks: &[Block])
    ensures begins { BeginsWhere (is_turned blocks.now) table.old table.new }
    ensures len { length table.new ≡ length table.old }
{
    for block in blocks {
        begin_behind(table, block.exit);
    }
}

/// A section begins behind a loop edge.
fn begin_behind(table: &mut [Marks], exit: Exit)
    ensures begins { BeginsWhere (turns_to exit) table.old table.new }
    ensures len { length table.new ≡ length table.old }
{
    match exit {
        Exit::Turn(to) => begin(table, to),
        Exit::Jump(_) => {}
        Exit::Branch { .. } => {}
        Exit::Return(_) => {}
    }
}

/// A section begins at this block.
fn begin(table: &mut [Marks], number: u32)
    ensures begins { BeginsWhere (λ c. number == c) table.old table.new }
    ensures len { length table.new ≡ length table.old }
{
    let place = number as usize;
    if place >= table.len() {
        return;
    }
    table[place].reached = true;
}
