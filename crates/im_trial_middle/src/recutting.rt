ghost use Rattle.std.specs.Prelude.{IfOk};
ghost use Rattle.im_block.specs.Forced.{AllForced};
ghost use Rattle.im_block.specs.Shape.{AllOrdered};
ghost use Rattle.im_recut.specs.Recut.{IsGapLimit};

use crate::fault::{Fault, taken};
use crate::forcing::tell_cuts;
use im_block::{Block, Exit, Function, Line, Place, Registers, Tag, Tags, Unit};
use im_num::{Cause, Kind};
use im_recut::recut;
use im_serve::Service;
use im_trial::{Case, Row, Stop};
use std::alloc::Global;

/// Instructions: no smaller limit of the gap is taken by `recut`.
const LEAST_GAP_LIMIT: u32 = 160;

/// The static.
const S: Place = Place::Static {
    object: 0,
    offset: 0,
};

/// Slot 0 and the static are written first in their section; slot 1 is read, then written. Each
/// access costs at most four words, a return eight: 60 behind the call.
fn sample(alloc: Global) -> Result<Unit, Fault>
    ensures ordered { IfOk result AllOrdered }
    ensures forced { IfOk result AllForced }
{
    let lines = vec![in alloc;
        Line::Cut(Cause::Entry),
        Line::Serve {
            to: 10,
            service: Service::Getchar,
            from: None
        },
        Line::Cut(Cause::Return),
        Line::Spill {
            slot: 0,
            from: 10,
            access: 18,
        },
        Line::Write {
            place: S,
            kind: Kind::I32,
            from: 10,
            access: 1,
        },
        Line::Read {
            to: 10,
            place: S,
            kind: Kind::I32,
            access: 2,
        },
        Line::Reload {
            to: 7,
            slot: 1,
            access: 49,
        },
        Line::Write {
            place: S,
            kind: Kind::I32,
            from: 10,
            access: 3,
        },
        Line::Spill {
            slot: 1,
            from: 10,
            access: 50,
        },
        Line::Spill {
            slot: 0,
            from: 10,
            access: 51,
        },
        Line::Read {
            to: 10,
            place: S,
            kind: Kind::I32,
            access: 4,
        },
        Line::Read {
            to: 10,
            place: S,
            kind: Kind::I32,
            access: 5,
        },
        Line::Read {
            to: 10,
            place: S,
            kind: Kind::I32,
            access: 6,
        },
        Line::Read {
            to: 10,
            place: S,
            kind: Kind::I32,
            access: 7,
        },
        Line::Read {
            to: 10,
            place: S,
            kind: Kind::I32,
            access: 8,
        },
        Line::Read {
            to: 10,
            place: S,
            kind: Kind::I32,
            access: 9,
        },
    ]?;
    let blocks = vec![in alloc;
        Block {
            lines,
            exit: Exit::Return(None),
        },
    ]?;
    let function = Function {
        nodes: 8,
        need: 112,
        registers: Registers::Machine,
        register_count: 32,
        parameters: 0,
        first_parameter: 10,
        first_object: 1,
        objects: Vec::new(alloc),
        slots: 2,
        blocks,
        entry: 0,
    };
    Ok(Unit {
        statics: Vec::new(alloc),
        functions: vec![in alloc; function]?,
        main: 0,
    })
}

/// Each access with a tag is one of the static's first bytes.
fn tags(alloc: Global) -> Result<Tags, Fault> {
    Ok(Tags {
        of: vec![in alloc; 0, 0, 0, 0, 0, 0, 0, 0, 0, 0]?,
        tags: vec![in alloc;
            Tag::Direct {
                object: 0,
                offset: 0
            },
        ]?,
    })
}

fn cut_again(alloc: Global, max_gap: Option<u32>) -> Result<Unit, Fault>
    requires { IsGapLimit max_gap }
{
    Ok(recut(alloc, sample(alloc)?, &tags(alloc)?, max_gap)?)
}

fn tell_cut_again(max_gap: Option<u32>, case: &mut Case)
    requires { IsGapLimit max_gap }
{
    if let Some(unit) = taken(cut_again(case.alloc, max_gap), case) {
        tell_cuts(&unit.functions, case);
    }
}

/// `recut`, a name, the longest gap that is allowed, at least 160 instructions, or `-`: the lines
/// that are cuts in code that is cut again, each with its number and its cause.
pub(crate) fn recut_code(row: &Row<'_>, case: &mut Case) {
    let limit = row.field(2);
    if limit == "-" {
        tell_cut_again(None, case);
        return;
    }
    let gap = case.small(limit);
    if gap < LEAST_GAP_LIMIT {
        case.end(Stop::Row);
    } else {
        tell_cut_again(Some(gap), case);
    }
}
