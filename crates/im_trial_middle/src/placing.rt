ghost use Rattle.std.specs.Prelude.{IfOk};
ghost use Rattle.im_alloc.specs.Sample.{IsTaken};
ghost use Rattle.im_trial_middle.specs.Unplaced.{IsFirst, IsSecond};

use crate::fault::{Fault, taken};
use crate::selecting::MOST_BLOCKS;
use crate::spelling::blocks_of;
use crate::unplaced::is_open;
use im_alloc::place;
use im_block::{Block, Exit, Function, Object, Registers, Unit};
use im_trial::{Case, Row};
use std::alloc::Global;

// A function of these blocks that begins with the last, with an object of 4 bytes.
fn first(alloc: Global, blocks: Vec<Block>) -> Result<Function, Fault>
    ensures { IfOk result IsFirst }
{
    let count = blocks.len();
    if count == 0 || count > MOST_BLOCKS {
        return Err(Fault::Refused);
    }
    let object = Object {
        size: 4,
        cells: Vec::new(alloc),
    };
    let objects = vec![in alloc; object]?;
    Ok(Function {
        nodes: 1,
        need: 1000,
        registers: Registers::Virtual,
        register_count: 32,
        parameters: 0,
        first_parameter: 0,
        first_object: 0,
        objects,
        slots: 0,
        blocks,
        entry: (count - 1) as u32,
    })
}

// `void second(int a, int b) { }`.
fn second(alloc: Global) -> Result<Function, Fault>
    ensures { IfOk result IsSecond }
{
    let block = Block {
        lines: Vec::new(alloc),
        exit: Exit::Return(None),
    };
    Ok(Function {
        nodes: 1,
        need: 100,
        registers: Registers::Virtual,
        register_count: 2,
        parameters: 2,
        first_parameter: 0,
        first_object: 1,
        objects: Vec::new(alloc),
        slots: 0,
        blocks: vec![in alloc; block]?,
        entry: 0,
    })
}

// A function of these blocks, as `main`, beside one that takes two arguments.
fn unit_of(alloc: Global, blocks: Vec<Block>) -> Result<Unit, Fault>
    ensures { IfOk result IsTaken }
{
    let function = first(alloc, blocks)?;
    if !is_open(&function) {
        return Err(Fault::Refused);
    }
    Ok(Unit {
        statics: Vec::new(alloc),
        functions: vec![in alloc; function, second(alloc)?]?,
        main: 0,
    })
}

fn placed(alloc: Global, blocks: Vec<Block>) -> Result<Unit, Fault> {
    let unit = unit_of(alloc, blocks)?;
    let unit = place(alloc, unit)?;
    Ok(unit)
}

// Tells the lines of a block and how it ends.
fn tell_block(block: &Block, case: &mut Case) {
    for line in &block.lines {
        case.debug(line);
        case.say(",");
    }
    case.debug(&block.exit);
    case.say(";");
}

// Tells how many slots a function has, whose its registers are, and its blocks.
fn tell_function(function: &Function, case: &mut Case) {
    case.show(function.slots);
    case.debug(&function.registers);
    case.say(":");
    for block in &function.blocks {
        tell_block(block, case);
    }
}

/// `place`, a name, and below it the lines of a function's blocks: how many slots it has that is
/// placed, whose its registers are, and its lines and exits.
pub(crate) fn place_code(row: &Row<'_>, case: &mut Case) {
    let read = blocks_of(row.below(), case);
    let Some(blocks) = case.take(read) else {
        return;
    };
    if case.stop.is_some() {
        return;
    }
    if let Some(unit) = taken(placed(case.alloc, blocks), case) {
        if let Some(function) = unit.functions.first() {
            tell_function(function, case);
        }
    }
}
