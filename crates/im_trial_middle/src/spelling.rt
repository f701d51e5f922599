use crate::words::Left;
use im_block::{Block, Exit, Line, Place};
use im_trial::{Case, Stop};
use std::mem;

/// A place: `static`, `local` or `through`, the object or the pointer's register, and an offset.
fn place_of(left: &mut Left<'_>, case: &mut Case) -> Place {
    let form = left.word();
    let base = left.small(case);
    let offset = left.small(case);
    match form {
        "static" => Place::Static {
            object: base,
            offset,
        },
        "local" => Place::Local {
            object: base,
            offset,
        },
        "through" => Place::Through {
            pointer: base,
            offset,
        },
        _ => {
            case.end(Stop::Row);
            Place::Static {
                object: base,
                offset,
            }
        }
    }
}

/// A line that sets a register by at most one other.
fn plain(form: &str, left: &mut Left<'_>, case: &mut Case) -> Option<Line> {
    let to = left.small(case);
    match form {
        "put" => Some(Line::Put {
            to,
            number: left.number(case),
        }),
        "null" => Some(Line::PutNull { to }),
        "copy" => Some(Line::Copy {
            to,
            from: left.small(case),
        }),
        "convert" => Some(Line::Convert {
            to,
            kind: left.kind(case),
            from: left.small(case),
        }),
        "unary" => Some(Line::Unary {
            to,
            op: left.unary(case),
            kind: left.kind(case),
            from: left.small(case),
        }),
        "not" => Some(Line::Not {
            to,
            from: left.small(case),
        }),
        _ => None,
    }
}

/// A line that sets a register by two others.
fn operation(form: &str, left: &mut Left<'_>, case: &mut Case) -> Option<Line> {
    let to = left.small(case);
    match form {
        "compute" => Some(Line::Compute {
            to,
            op: left.operator(case),
            kind: left.kind(case),
            left: left.small(case),
            right: left.small(case),
        }),
        "compare" => Some(Line::Compare {
            to,
            op: left.comparison(case),
            kind: left.kind(case),
            left: left.small(case),
            right: left.small(case),
        }),
        "move" => Some(Line::Move {
            to,
            size: left.small(case),
            back: left.back(case),
            pointer: left.small(case),
            by: left.small(case),
        }),
        "distance" => Some(Line::Distance {
            to,
            size: left.small(case),
            left: left.small(case),
            right: left.small(case),
        }),
        _ => None,
    }
}

/// A line about a place or a slot.
fn access(form: &str, left: &mut Left<'_>, case: &mut Case) -> Option<Line> {
    let number = left.small(case);
    match form {
        "address" => Some(Line::Address {
            to: number,
            place: place_of(left, case),
        }),
        "read" => Some(Line::Read {
            to: number,
            place: place_of(left, case),
            kind: left.kind(case),
            access: left.access(),
        }),
        "write" => Some(Line::Write {
            from: number,
            place: place_of(left, case),
            kind: left.kind(case),
            access: left.access(),
        }),
        "reload" => Some(Line::Reload {
            to: number,
            slot: left.small(case),
            access: left.access(),
        }),
        "spill" => Some(Line::Spill {
            from: number,
            slot: left.small(case),
            access: left.access(),
        }),
        _ => None,
    }
}

/// A line that may pass on to the runtime or to another function.
fn passing(form: &str, left: &mut Left<'_>, case: &mut Case) -> Option<Line> {
    match form {
        "cut" => Some(Line::Cut(left.cause(case))),
        "call" => Some(Line::Call {
            to: left.small(case),
            function: left.small(case),
            first: left.small(case),
            count: left.small(case),
        }),
        "serve" => Some(Line::Serve {
            to: left.small(case),
            service: left.service(case),
            from: left.register_left(case),
        }),
        _ => None,
    }
}

fn line_of(form: &str, left: &mut Left<'_>, case: &mut Case) -> Option<Line> {
    match form {
        "put" | "null" | "copy" | "convert" | "unary" | "not" => plain(form, left, case),
        "compute" | "compare" | "move" | "distance" => operation(form, left, case),
        "address" | "read" | "write" | "reload" | "spill" => access(form, left, case),
        _ => passing(form, left, case),
    }
}

fn exit_of(form: &str, left: &mut Left<'_>, case: &mut Case) -> Option<Exit> {
    match form {
        "jump" => Some(Exit::Jump(left.small(case))),
        "turn" => Some(Exit::Turn(left.small(case))),
        "branch" => Some(Exit::Branch {
            on: left.small(case),
            holds: left.small(case),
            fails: left.small(case),
        }),
        "return" => Some(Exit::Return(Some(left.small(case)))),
        "leave" => Some(Exit::Return(None)),
        _ => None,
    }
}

// Puts a line behind those of the block that is read, or ends this block.
fn take_line(
    blocks: &mut Vec<Block>,
    lines: &mut Vec<Line>,
    mut left: Left<'_>,
    case: &mut Case,
) -> Result<(), Stop> {
    let form = left.word();
    if let Some(exit) = exit_of(form, &mut left, case) {
        let lines = mem::replace(lines, Vec::new(case.alloc));
        blocks.push(Block { lines, exit })?;
    } else if let Some(line) = line_of(form, &mut left, case) {
        lines.push(line)?;
    } else {
        return Err(Stop::Row);
    }
    left.finish(case);
    Ok(())
}

/// The blocks of a text of lines, each of which ends at its exit, from block 0 on. An access has
/// the number of its line, from 0 on.
pub(crate) fn blocks_of(text: &str, case: &mut Case) -> Result<Vec<Block>, Stop> {
    let mut blocks = Vec::new(case.alloc);
    let mut lines = Vec::new(case.alloc);
    for (number, line) in text.lines().enumerate() {
        take_line(
            &mut blocks,
            &mut lines,
            Left::new(line, number as u64),
            case,
        )?;
    }
    if lines.is_empty() {
        Ok(blocks)
    } else {
        Err(Stop::Row)
    }
}
