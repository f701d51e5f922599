ghost use Rattle.std.specs.Prelude.{◌≡◌, ◌<◌, ◌+◌, ◌++◌, length, slice_get, slice_index, All, OnOk};
ghost use Rattle.std.specs.Prelude.{IfOk, IfSome};
ghost use Rattle.im_rv.specs.Lines.{code_lines};
ghost use Rattle.im_block.specs.Wellformed.{ExitThere};
ghost use Rattle.im_alloc_placed.specs.Placed.{IsPlacedExit, IsPlacedBlock};
ghost use Rattle.im_live.specs.Words.{entry_at, starts_have};
ghost use Rattle.im_select.specs.Leads.{led, AreLeads};
ghost use Rattle.im_select.specs.Emitted.{labelled, leave_code, result_code, onward_code};
ghost use Rattle.im_select.specs.Emitted.{test_code, test_or, is_next, branch_code, ended_code};
ghost use Rattle.im_select.specs.Emitted.{enter_code, prologue_code, taken_test, taking_code};
ghost use Rattle.im_select.specs.Emitted.{behind_at, found_code};
ghost use Rattle.im_select.specs.Given.{given};
ghost use Rattle.im_select.specs.Places.{at_of, HasPlaces, IsTest};
ghost use Rattle.im_select.specs.Selects.{laying_of, IsClosedBlock};

use crate::branching::{Test, branch_by, own_lines, taken_test};
use crate::distance::Distance;
use crate::leads::led;
use crate::lines::push_lines;
use crate::names::Names;
use crate::push::{push, push_aimed, push_jump};
use crate::words::push_added;
use im_block::{Block, Exit};
use im_live::points;
use im_num::NoMemory;
use im_rtlib::STACK;
use im_rv::Line;
use im_rv::assembler::{addi, bgeu, jalr, lw, sw};
use std::alloc::Global;

/// The first line has a label.
pub(crate) fn label_first(lines: &mut Vec<Line>, label: u32)
    ensures { code_lines lines.new.items ≡ labelled label (code_lines lines.old.items) }
{
    if !lines.is_empty() {
        let mut first = lines[0];
        first.label = Some(label);
        lines[0] = first;
    }
}

/// Back to the caller: the return address is taken, and the stack pointer goes up by the frame.
fn push_leave(lines: &mut Vec<Line>, frame: u32) -> Result<(), NoMemory>
    ensures { OnOk result (code_lines lines.new.items
        ≡ code_lines lines.old.items ++ leave_code frame) }
{
    push(lines, lw(1, 0, 2))?;
    push_added(lines, 2, frame)?;
    push(lines, jalr(0, 0, 1))
}

/// Whether a label stands next.
fn is_next(next: Option<u32>, label: u32) -> bool
    ensures { result ≡ is_next next label }
{
    match next {
        Some(next) => next == label,
        None => false,
    }
}

/// On to the block of a label: by no line, where it stands next.
fn push_onward(lines: &mut Vec<Line>, is_next: bool, label: u32) -> Result<(), NoMemory>
    ensures { OnOk result (code_lines lines.new.items
        ≡ code_lines lines.old.items ++ onward_code is_next label) }
{
    if is_next {
        return Ok(());
    }
    push_jump(lines, 0, label)
}

/// To a label where a test holds or, where `holds` is false, where it does not: near, or over a
/// jump.
fn push_test(
    lines: &mut Vec<Line>,
    distance: Distance,
    holds: bool,
    test: Test,
    label: u32,
) -> Result<(), NoMemory>
    requires { IsTest test }
    ensures { OnOk result (code_lines lines.new.items
        ≡ code_lines lines.old.items ++ test_code distance holds test label) }
{
    match distance {
        Distance::Near => push_aimed(lines, branch_by(test, holds, 0), label),
        Distance::Far => {
            push(lines, branch_by(test, !holds, 8))?;
            push_jump(lines, 0, label)
        }
    }
}

/// To one of two labels, by a test.
fn push_branch(
    lines: &mut Vec<Line>,
    distance: Distance,
    next: Option<u32>,
    test: Test,
    holds: u32,
    fails: u32,
) -> Result<(), NoMemory>
    requires { IsTest test }
    ensures { OnOk result (code_lines lines.new.items
        ≡ code_lines lines.old.items ++ branch_code distance next test holds fails) }
{
    if is_next(next, holds) {
        return push_test(lines, distance, false, test, fails);
    }
    push_test(lines, distance, true, test, holds)?;
    push_onward(lines, is_next(next, fails), fails)
}

/// The test of a branch: that of the comparison that it takes, else whether its register is not 0.
fn test_or(taken: Option<Test>, on: u32) -> Test
    requires on { on < 32 }
    requires taken { IfSome taken IsTest }
    ensures value { result ≡ test_or taken on }
    ensures test { IsTest result }
{
    match taken {
        Some(test) => test,
        None => Test::Nonzero(on),
    }
}

/// x10 is 0 where there is no result, so that nothing lives in it.
fn push_result(lines: &mut Vec<Line>, from: Option<u32>) -> Result<(), NoMemory>
    ensures { OnOk result (code_lines lines.new.items
        ≡ code_lines lines.old.items ++ result_code from) }
{
    match from {
        None => push(lines, addi(10, 0, 0)),
        Some(_) => Ok(()),
    }
}

/// The lines of a block's exit, behind its other lines; `next` is the label that stands behind it,
/// `taken` the test that it takes of the line before it.
fn push_exit(
    lines: &mut Vec<Line>,
    names: &Names,
    distance: Distance,
    next: Option<u32>,
    taken: Option<Test>,
    exit: Exit,
) -> Result<(), NoMemory>
    requires places { HasPlaces (given names.now) }
    requires test { IfSome taken IsTest }
    requires placed { IsPlacedExit exit }
    requires there { ExitThere (length names.now.function.now.blocks.items) exit }
    ensures { OnOk result (code_lines lines.new.items ≡ ended_code distance next
        names.now.first_block names.now.layout.now.frame taken (code_lines lines.old.items) exit) }
{
    let first = names.first_block;
    match exit {
        Exit::Jump(to) => {
            let bare = lines.is_empty();
            push_onward(lines, !bare && is_next(next, first + to), first + to)
        }
        Exit::Turn(to) => push_jump(lines, 0, first + to),
        Exit::Branch { on, holds, fails } => {
            let test = test_or(taken, on);
            push_branch(lines, distance, next, test, first + holds, first + fails)
        }
        Exit::Return(from) => {
            push_result(lines, from)?;
            push_leave(lines, names.layout.frame)
        }
    }
}

/// The lines of a block, by its number and the registers that live at the starts of blocks and at
/// its points.
fn lines_by(
    alloc: Global,
    names: &Names,
    live: &[u32],
    leads: &[u32],
    points: &[u32],
    distance: Distance,
    next: Option<u32>,
    number: u32,
    block: &Block,
) -> Result<Vec<Line>, NoMemory>
    requires places { HasPlaces (given names.now) }
    requires number { number < length names.now.function.now.blocks.items }
    requires placed { IsPlacedBlock
        (length names.now.statics.now) names.now.function.now block.now }
    requires closed { IsClosedBlock (given names.now) block.now }
    requires starts { length live.now ≡ length names.now.function.now.blocks.items }
    requires leads { AreLeads names.now.function.now leads.now }
    requires enough { length points.now ≡ length block.now.lines.items + 1 }
    ensures { IfOk result (λ lines. code_lines lines.items
        ≡ labelled (names.now.first_block + number) (taking_code (at_of (given names.now))
        (entry_at points.now) (behind_at points.now) distance next names.now.first_block
        names.now.layout.now.frame
        (taken_test (starts_have live.now) block.now.lines.items block.now.exit)
        block.now.lines.items (led (slice_index leads.now) block.now.exit))) }
{
    let mut lines = Vec::new(alloc);
    let taken = taken_test(live, &block.lines, block.exit);
    push_lines(&mut lines, names, points, own_lines(&block.lines, taken))?;
    push_exit(
        &mut lines,
        names,
        distance,
        next,
        taken,
        led(leads, block.exit),
    )?;
    label_first(&mut lines, names.first_block + number);
    Ok(lines)
}

/// The lines of a block, by its number; `next` is the label that stands behind it. A word of `live`
/// has the registers that live at the start of a block, a number of `leads` where a block leads.
pub(crate) fn block_lines(
    alloc: Global,
    names: &Names,
    live: &[u32],
    leads: &[u32],
    distance: Distance,
    next: Option<u32>,
    number: u32,
) -> Result<Vec<Line>, NoMemory>
    requires places { HasPlaces (given names.now) }
    requires number { number < length names.now.function.now.blocks.items }
    requires placed { All (IsPlacedBlock (length names.now.statics.now) names.now.function.now)
        names.now.function.now.blocks.items }
    requires closed { All (IsClosedBlock (given names.now)) names.now.function.now.blocks.items }
    requires enough { length live.now ≡ length names.now.function.now.blocks.items }
    requires leads { AreLeads names.now.function.now leads.now }
    ensures { IfOk result (λ lines. code_lines lines.items
        ≡ found_code (laying_of (given names.now) (starts_have live.now) distance) number next
        (slice_get names.now.function.now.blocks.items number)) }
{
    let block = &names.function.blocks[number as usize];
    let words = points(alloc, live, block)?;
    let lines = lines_by(
        alloc, names, live, leads, &words, distance, next, number, block,
    )?;
    Ok(lines)
}

/// A function's first lines: room on the stack is tested, its pointer goes down by the frame, the
/// return address is kept.
pub(crate) fn push_prologue(lines: &mut Vec<Line>, frame: u32) -> Result<(), NoMemory>
    requires { 0 < frame }
    ensures { OnOk result (code_lines lines.new.items
        ≡ code_lines lines.old.items ++ prologue_code frame) }
{
    push_added(lines, 6, u32::MAX - (frame - 1))?;
    push_enter(lines)
}

/// The test of the stack, and what is set behind it.
fn push_enter(lines: &mut Vec<Line>) -> Result<(), NoMemory>
    ensures { OnOk result (code_lines lines.new.items
        ≡ code_lines lines.old.items ++ enter_code) }
{
    push(lines, lw(5, 28, 0))?;
    push(lines, bgeu(6, 5, 8))?;
    push_jump(lines, 0, STACK)?;
    push(lines, addi(2, 6, 0))?;
    push(lines, sw(1, 0, 2))
}
