ghost use Rattle.std.specs.Prelude.{◌≡◌, [], ◌∷◌, length, IfOk};
ghost use Rattle.im_num.specs.declared.values.Cause.TheVariants.{Entry, Return, Dep};
ghost use Rattle.im_block.specs.Wellformed.{IsStatic};
ghost use Rattle.im_block.specs.Meaning.{static_of};
ghost use Rattle.im_pack.specs.Packed.{IsNamable};
ghost use Rattle.im_trial_middle.specs.Buildable.{IsBuildable, IsGiven};

use crate::fault::Fault;
use im_block::{Block, Constant, Exit, Function, Line, Object, Place, Registers, Static, Unit};
use im_ctype::Cell;
use im_num::{Cause, Kind};
use im_serve::Service;
use im_store::BinaryOp;
use std::alloc::Global;

// void add(int *p, int n) { if (n) { add(p, n - 1); *p = *p + n; } }
//
// The arguments come in x10 and x11, and are kept in the slots 0 and 1 across the call.
fn add(alloc: Global) -> Result<Function, Fault>
    ensures { IfOk result (IsGiven 2 0 (0 ∷ 1 ∷ 2 ∷ 3 ∷ 4 ∷ 5 ∷ [])
        (Entry ∷ Return ∷ Dep 4 5 ∷ [])) }
{
    let begin = vec![in alloc;
        Line::Cut(Cause::Entry),
        Line::Spill {
            slot: 0,
            from: 10,
            access: 0,
        },
        Line::Spill {
            slot: 1,
            from: 11,
            access: 1,
        },
    ]?;
    let deeper = vec![in alloc;
        Line::Put { to: 12, number: 1 },
        Line::Compute {
            to: 11,
            op: BinaryOp::Subtract,
            kind: Kind::I32,
            left: 11,
            right: 12,
        },
        Line::Call {
            to: 10,
            function: 0,
            first: 10,
            count: 2,
        },
        Line::Cut(Cause::Return),
        Line::Reload {
            to: 9,
            slot: 0,
            access: 2,
        },
        Line::Reload {
            to: 31,
            slot: 1,
            access: 3,
        },
        Line::Read {
            to: 21,
            place: Place::Through {
                pointer: 9,
                offset: 0,
            },
            kind: Kind::I32,
            access: 4,
        },
        Line::Compute {
            to: 21,
            op: BinaryOp::Add,
            kind: Kind::I32,
            left: 21,
            right: 31,
        },
        Line::Cut(Cause::Dep { read: 4, write: 5 }),
        Line::Write {
            place: Place::Through {
                pointer: 9,
                offset: 0,
            },
            kind: Kind::I32,
            from: 21,
            access: 5,
        },
    ]?;
    let blocks = vec![in alloc;
        Block {
            lines: begin,
            exit: Exit::Branch {
                on: 11,
                holds: 1,
                fails: 2,
            },
        },
        Block {
            lines: deeper,
            exit: Exit::Jump(2),
        },
        Block {
            lines: Vec::new(alloc),
            exit: Exit::Return(None),
        },
    ]?;
    Ok(Function {
        nodes: 20,
        need: 100,
        registers: Registers::Machine,
        register_count: 32,
        parameters: 2,
        first_parameter: 10,
        first_object: 1,
        objects: Vec::new(alloc),
        slots: 2,
        blocks,
        entry: 0,
    })
}

// int main(void) { int sum; sum = 0; add(&sum, 3); putchar(48 + sum); total = sum; return sum; }
fn main_of(alloc: Global) -> Result<Function, Fault>
    ensures { IfOk result (IsGiven 0 1 (6 ∷ 7 ∷ 8 ∷ 9 ∷ []) (Entry ∷ Return ∷ Return ∷ [])) }
{
    let sum = Place::Local {
        object: 1,
        offset: 0,
    };
    let lines = vec![in alloc;
        Line::Cut(Cause::Entry),
        Line::Put { to: 10, number: 0 },
        Line::Write {
            place: sum,
            kind: Kind::I32,
            from: 10,
            access: 6,
        },
        Line::Address { to: 10, place: sum },
        Line::Put { to: 11, number: 3 },
        Line::Call {
            to: 10,
            function: 0,
            first: 10,
            count: 2,
        },
        Line::Cut(Cause::Return),
        Line::Read {
            to: 10,
            place: sum,
            kind: Kind::I32,
            access: 7,
        },
        Line::Put { to: 11, number: 48 },
        Line::Compute {
            to: 10,
            op: BinaryOp::Add,
            kind: Kind::I32,
            left: 10,
            right: 11,
        },
        Line::Serve {
            to: 10,
            service: Service::Putchar,
            from: Some(10)
        },
        Line::Cut(Cause::Return),
        Line::Read {
            to: 10,
            place: sum,
            kind: Kind::I32,
            access: 8,
        },
        Line::Write {
            place: Place::Static {
                object: 0,
                offset: 0,
            },
            kind: Kind::I32,
            from: 10,
            access: 9,
        },
    ]?;
    let block = Block {
        lines,
        exit: Exit::Return(Some(10)),
    };
    let cell = Cell {
        offset: 0,
        kind: Kind::I32,
    };
    let object = Object {
        size: 4,
        cells: vec![in alloc; cell]?,
    };
    Ok(Function {
        nodes: 20,
        need: 100,
        registers: Registers::Machine,
        register_count: 32,
        parameters: 0,
        first_parameter: 10,
        first_object: 1,
        objects: vec![in alloc; object]?,
        slots: 0,
        blocks: vec![in alloc; block]?,
        entry: 0,
    })
}

// int total;
fn total(alloc: Global) -> Result<Static, Fault>
    ensures holds { IfOk result (λ s. IsStatic (s ∷ []) s) }
    ensures size { IfOk result (λ s. s.object.size ≡ 4) }
    ensures named { IfOk result (λ s. IsNamable (static_of s)) }
{
    let cell = Cell {
        offset: 0,
        kind: Kind::I32,
    };
    let object = Object {
        size: 4,
        cells: vec![in alloc; cell]?,
    };
    Ok(Static {
        name: Vec::from_slice(alloc, b"total")?,
        object,
        values: vec![in alloc; Constant::Number(0)]?,
    })
}

/// A function that calls itself and writes through a pointer to an object of its first caller, and
/// `main`, which has that object.
pub(crate) fn unit(alloc: Global) -> Result<Unit, Fault>
    ensures buildable { IfOk result IsBuildable }
    ensures two { IfOk result (λ u. length u.functions.items ≡ 2) }
{
    Ok(Unit {
        statics: vec![in alloc; total(alloc)?]?,
        functions: vec![in alloc; add(alloc)?, main_of(alloc)?]?,
        main: 1,
    })
}
