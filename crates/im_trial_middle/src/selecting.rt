ghost use Rattle.std.specs.Prelude.{◌≡◌, ◌<◌, ◌≤◌, length, IfOk};
ghost use Rattle.im_frame.specs.Layout.{bytes_of};
ghost use Rattle.im_select.specs.Given.{given};
ghost use Rattle.im_select.specs.Places.{HasPlaces};
ghost use Rattle.im_trial_middle.specs.Shell.{IsShell};

use crate::fault::{Fault, taken};
use crate::placed::are_blocks;
use crate::spelling::blocks_of;
use im_block::{Block, Function, Object, Registers};
use im_frame::lay_out;
use im_rv::Line;
use im_rv::encode::encode;
use im_select::{Names, select};
use im_trial::{Case, Row};
use std::alloc::Global;

/// More blocks than a row has.
pub(crate) const MOST_BLOCKS: usize = 1000;

/// The lines that test the stack and make the frame; their words are those of the row of kind
/// `assemble`.
const FRAME_LINES: usize = 6;

// A function of these blocks that begins with the last, with two slots and an object of 4 bytes: a
// frame of 32 bytes, the object at 24.
fn function_of(alloc: Global, blocks: Vec<Block>) -> Result<Function, Fault>
    ensures shell { IfOk result IsShell }
    ensures frame { IfOk result (λ f. bytes_of f ≤ f.need) }
    ensures first { IfOk result (λ f. f.first_object ≡ 1) }
    ensures blocks { IfOk result (λ f. length f.blocks.items ≤ 1000) }
{
    let count = blocks.len();
    if count == 0 || count > MOST_BLOCKS {
        return Err(Fault::Refused);
    }
    let object = Object {
        size: 4,
        cells: Vec::new(alloc),
    };
    let objects = vec![in alloc; object]?;
    Ok(Function {
        nodes: 1,
        need: 100,
        registers: Registers::Machine,
        register_count: 32,
        parameters: 0,
        first_parameter: 10,
        first_object: 1,
        objects,
        slots: 2,
        blocks,
        entry: (count - 1) as u32,
    })
}

// The lines of a function, where it is one of placed code.
fn lines_of(alloc: Global, names: &Names) -> Result<Vec<Line>, Fault>
    requires places { HasPlaces (given names.now) }
    requires shell { IsShell names.now.function.now }
    requires some { 0 < names.now.functions }
{
    if !are_blocks(names, &names.function.blocks) {
        return Err(Fault::Refused);
    }
    let lines = select(alloc, names, 0)?;
    Ok(lines)
}

// The lines of a function of these blocks, beside a static at 0x100000.
fn selected(alloc: Global, blocks: Vec<Block>) -> Result<Vec<Line>, Fault> {
    let function = function_of(alloc, blocks)?;
    let layout = lay_out(alloc, &function)?;
    let names = Names {
        statics: &[0x100000],
        functions: 1,
        function: &function,
        layout: &layout,
        first_block: 65,
    };
    let lines = lines_of(alloc, &names)?;
    Ok(lines)
}

// The label that stands at a line, its word, and the label that it leads to.
fn tell_line(line: &Line, case: &mut Case) {
    if let Some(label) = line.label {
        case.show(label);
        case.say(":");
    }
    case.word(encode(line.instr));
    if let Some(target) = line.target {
        case.say(" to");
        case.show(target);
    }
}

/// `select`, a name, and below it the lines of a function's blocks: of each line behind those that
/// make the frame the label that stands there, its word, and the label that it leads to.
pub(crate) fn select_code(row: &Row<'_>, case: &mut Case) {
    let read = blocks_of(row.below(), case);
    let Some(blocks) = case.take(read) else {
        return;
    };
    if case.stop.is_some() {
        return;
    }
    if let Some(lines) = taken(selected(case.alloc, blocks), case) {
        for line in lines.iter().skip(FRAME_LINES) {
            tell_line(line, case);
        }
    }
}
