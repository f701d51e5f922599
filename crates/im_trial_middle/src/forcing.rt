use crate::fault::{Fault, taken};
use im_block::{Block, Exit, Function, Line, Place, Registers, Unit};
use im_force::force;
use im_num::Kind;
use im_serve::Service;
use im_trial::Case;
use std::alloc::Global;

/// The static.
const S: Place = Place::Static {
    object: 0,
    offset: 0,
};

/// The lines and the exit of each block of the counter, by hand, from the last block to the first:
/// `int main(void) { while (getchar() >= 0) s = s + 1; return 0; }`.
const COUNTER: [(&[Line], Exit); 4] = [
    (&[Line::Put { to: 0, number: 0 }], Exit::Return(Some(0))),
    (&[], Exit::Turn(3)),
    (
        &[
            Line::Serve {
                to: 0,
                service: Service::Getchar,
                from: None,
            },
            Line::Not { to: 0, from: 0 },
        ],
        Exit::Branch {
            on: 0,
            holds: 0,
            fails: 1,
        },
    ),
    (
        &[
            Line::Read {
                to: 0,
                place: S,
                kind: Kind::I32,
                access: 1,
            },
            Line::Put { to: 1, number: 1 },
            Line::Write {
                place: S,
                kind: Kind::I32,
                from: 1,
                access: 2,
            },
            Line::Serve {
                to: 0,
                service: Service::Putchar,
                from: Some(1),
            },
            Line::Write {
                place: S,
                kind: Kind::I32,
                from: 0,
                access: 3,
            },
        ],
        Exit::Jump(2),
    ),
];

/// Blocks of these lines and exits.
pub(crate) fn blocks_of(alloc: Global, rows: &[(&[Line], Exit)]) -> Result<Vec<Block>, Fault> {
    let mut blocks = Vec::new(alloc);
    for (lines, exit) in rows {
        let lines = Vec::from_slice(alloc, lines)?;
        blocks.push(Block { lines, exit: *exit })?;
    }
    Ok(blocks)
}

fn counter(alloc: Global) -> Result<Unit, Fault> {
    let main = Function {
        nodes: 12,
        need: 160,
        registers: Registers::Virtual,
        register_count: 2,
        parameters: 0,
        first_parameter: 0,
        first_object: 0,
        objects: Vec::new(alloc),
        slots: 0,
        blocks: blocks_of(alloc, &COUNTER)?,
        entry: 2,
    };
    Ok(Unit {
        statics: Vec::new(alloc),
        functions: vec![in alloc; main]?,
        main: 0,
    })
}

fn tell_cuts_of(block: &Block, case: &mut Case) {
    for (number, line) in block.lines.iter().enumerate() {
        if let Line::Cut(cause) = line {
            case.say(",");
            case.show(number);
            case.debug(cause);
        }
    }
}

/// Tells of each block how many lines it has, and those that are cuts, each with its number and its
/// cause.
pub(crate) fn tell_cuts(functions: &[Function], case: &mut Case) {
    for function in functions {
        for block in &function.blocks {
            case.say("; block of");
            case.show(block.lines.len());
            tell_cuts_of(block, case);
        }
    }
}

fn forced(alloc: Global) -> Result<Unit, Fault> {
    Ok(force(alloc, counter(alloc)?)?)
}

/// The cuts of a loop with calls and writes, `int main(void) { while (getchar() >= 0) s = s + 1;
/// return 0; }`.
pub(crate) fn a_loop_with_calls_and_writes(case: &mut Case) {
    let alloc = case.alloc;
    if let Some(unit) = taken(forced(alloc), case) {
        tell_cuts(&unit.functions, case);
    }
}
