ghost use Rattle.std.specs.Prelude.{◌≡◌, ◌<◌, ◌++◌, ◌^◌, length, OnOk, IfOk, All};
ghost use Rattle.im_rv.specs.Lines.{code_lines};
ghost use Rattle.im_live.specs.Words.{starts_have};
ghost use Rattle.im_alloc_placed.specs.Placed.{IsPlacedBlock};
ghost use Rattle.im_select.specs.Leads.{lead, kept, AreLeads};
ghost use Rattle.im_select.specs.Emitted.{laid_order, kept_order, laid_code, function_code};
ghost use Rattle.im_select.specs.Given.{given};
ghost use Rattle.im_select.specs.Places.{HasPlaces};
ghost use Rattle.im_select.specs.Selects.{laying_of, IsClosedBlock, IsSelectable, IsFunctionCode};
ghost use Rattle.im_select.specs.Selects.{IsSelection};

use crate::blocks::{block_lines, label_first, push_prologue};
use crate::distance::Distance;
use crate::leads::{kept, leads_of};
use crate::names::Names;
use crate::order::{label_behind, laid_order};
use im_block::Function;
use im_live::starts;
use im_num::NoMemory;
use im_rtlib::FIRST_FREE;
use im_rv::Line;
use std::alloc::Global;

/// The most lines of a function in which a branch reaches every label: 4092 bytes of the 4094 that
/// its offset allows (RISC-V Unprivileged ISA, 2.5).
const NEAR_LINES: usize = 1023;

/// The lines of blocks in an order, by the registers that live at their starts and where they lead.
fn push_blocks(
    alloc: Global,
    lines: &mut Vec<Line>,
    names: &Names,
    live: &[u32],
    leads: &[u32],
    order: &[u32],
    distance: Distance,
) -> Result<(), NoMemory>
    requires enough { length live.now ≡ length names.now.function.now.blocks.items }
    requires leads { AreLeads names.now.function.now leads.now }
    requires there { All (λ b. b < length names.now.function.now.blocks.items) order.now }
    requires places { HasPlaces (given names.now) }
    requires placed { All (IsPlacedBlock (length names.now.statics.now) names.now.function.now)
        names.now.function.now.blocks.items }
    requires closed { All (IsClosedBlock (given names.now)) names.now.function.now.blocks.items }
    ensures { OnOk result (code_lines lines.new.items ≡ code_lines lines.old.items
        ++ laid_code (laying_of (given names.now) (starts_have live.now) distance) order.now) }
{
    for place in 0..order.len() {
        let next = label_behind(names.first_block, order, place);
        let block = block_lines(alloc, names, live, leads, distance, next, order[place])?;
        lines.extend_from_slice(&block)?;
    }
    Ok(())
}

/// All lines of a function, by the registers that live at the starts of its blocks.
fn lines_by(
    alloc: Global,
    names: &Names,
    number: u32,
    live: &[u32],
    leads: &[u32],
    order: &[u32],
    distance: Distance,
) -> Result<Vec<Line>, NoMemory>
    requires selectable { IsSelectable (given names.now) number }
    requires enough { length live.now ≡ length names.now.function.now.blocks.items }
    requires leads { AreLeads names.now.function.now leads.now }
    requires order { order.now
        ≡ kept_order (laying_of (given names.now) (starts_have live.now) distance) }
    ensures { IfOk result (λ lines. code_lines lines.items ≡ function_code number
        (laying_of (given names.now) (starts_have live.now) distance)) }
{
    let mut lines = Vec::new(alloc);
    push_prologue(&mut lines, names.layout.frame)?;
    label_first(&mut lines, FIRST_FREE + number);
    push_blocks(alloc, &mut lines, names, live, leads, order, distance)?;
    Ok(lines)
}

/// The blocks of a function for which lines are put, in the order in which they are laid.
fn kept_order(alloc: Global, function: &Function, leads: &[u32]) -> Result<Vec<u32>, NoMemory>
    requires small { length function.now.blocks.items < 2 ^ 32 }
    requires entry { function.now.entry < length function.now.blocks.items }
    requires leads { AreLeads function.now leads.now }
    ensures { IfOk result
        (λ order. order.items ≡ kept (lead function.now.blocks.items function.now.entry)
        (laid_order function.now.entry (length function.now.blocks.items))) }
{
    let order = laid_order(alloc, function.entry, function.blocks.len() as u32)?;
    let those = kept(alloc, leads, &order)?;
    Ok(those)
}

/// All lines of a function: with near branches, unless it has too many lines so.
fn function_lines(alloc: Global, names: &Names, number: u32) -> Result<Vec<Line>, NoMemory>
    requires { IsSelectable (given names.now) number }
    ensures { IfOk result
        (λ lines. IsFunctionCode (given names.now) number (code_lines lines.items)) }
{
    let function = names.function;
    let live = starts(alloc, function)?;
    let leads = leads_of(alloc, function)?;
    let order = kept_order(alloc, function, &leads)?;
    let lines = lines_by(alloc, names, number, &live, &leads, &order, Distance::Near)?;
    if lines.len() <= NEAR_LINES {
        return Ok(lines);
    }
    drop(lines);
    let lines = lines_by(alloc, names, number, &live, &leads, &order, Distance::Far)?;
    Ok(lines)
}

/// The lines of a function of placed code, by its number in the unit.
pub fn select(alloc: Global, names: &Names, number: u32) -> Result<Vec<Line>, NoMemory>
    requires { IsSelectable (given names.now) number }
    ensures { IfOk result (λ lines. IsSelection (given names.now) number (code_lines lines.items)) }
{
    let lines = function_lines(alloc, names, number)?;
    Ok(lines)
}
