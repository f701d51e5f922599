use crate::outcomes::tell_outcome;
use im_block::{Block, Constant, Exit, Function, Line, Object, Place, Registers, Static, Unit};
use im_block_run::{Setting, run};
use im_ctype::Cell;
use im_eval::Outcome;
use im_num::Kind;
use im_serve::Service;
use im_store::BinaryOp;
use im_trial::{Case, Row, Stop};
use std::alloc::Global;

// struct { int a; unsigned char b; } p = {5, 7}, q; int s;
// int add(int n) { while (n) { s = s + n; n = n - 1; } return s; }
// int main(void) { q = p; putchar(add(3) + q.b); return q.a; }

const P: u32 = 0;

const Q: u32 = 1;

const S: u32 = 2;

const N: u32 = 3;

fn of_static(object: u32, offset: u32) -> Place {
    Place::Static { object, offset }
}

const THE_N: Place = Place::Local {
    object: N,
    offset: 0,
};

fn read(to: u32, place: Place, kind: Kind) -> Line {
    Line::Read {
        to,
        place,
        kind,
        access: 0,
    }
}

fn write(place: Place, kind: Kind, from: u32) -> Line {
    Line::Write {
        place,
        kind,
        from,
        access: 0,
    }
}

fn compute(to: u32, op: BinaryOp, left: u32, right: u32) -> Line {
    Line::Compute {
        to,
        op,
        kind: Kind::I32,
        left,
        right,
    }
}

/// Puts a block behind others.
fn push(alloc: Global, blocks: &mut Vec<Block>, lines: &[Line], exit: Exit) -> Result<(), Stop> {
    let lines = Vec::from_slice(alloc, lines)?;
    blocks.push(Block { lines, exit })?;
    Ok(())
}

/// The turn of the loop in `add`.
fn push_turn(alloc: Global, blocks: &mut Vec<Block>) -> Result<(), Stop> {
    let lines = [
        read(1, of_static(S, 0), Kind::I32),
        read(2, THE_N, Kind::I32),
        compute(1, BinaryOp::Add, 1, 2),
        write(of_static(S, 0), Kind::I32, 1),
        read(1, THE_N, Kind::I32),
        Line::Put { to: 2, number: 1 },
        compute(1, BinaryOp::Subtract, 1, 2),
        write(THE_N, Kind::I32, 1),
    ];
    push(alloc, blocks, &lines, Exit::Jump(2))
}

fn add_blocks(alloc: Global) -> Result<Vec<Block>, Stop> {
    let mut blocks = Vec::new(alloc);
    let sum = read(1, of_static(S, 0), Kind::I32);
    push(alloc, &mut blocks, &[sum], Exit::Return(Some(1)))?;
    push(alloc, &mut blocks, &[], Exit::Turn(4))?;
    let test = Exit::Branch {
        on: 1,
        holds: 1,
        fails: 0,
    };
    push(alloc, &mut blocks, &[read(1, THE_N, Kind::I32)], test)?;
    push(
        alloc,
        &mut blocks,
        &[write(THE_N, Kind::I32, 0)],
        Exit::Jump(2),
    )?;
    push_turn(alloc, &mut blocks)?;
    Ok(blocks)
}

fn main_blocks(alloc: Global) -> Result<Vec<Block>, Stop> {
    let mut blocks = Vec::new(alloc);
    let lines = [
        read(0, of_static(P, 0), Kind::I32),
        read(1, of_static(P, 4), Kind::U8),
        write(of_static(Q, 0), Kind::I32, 0),
        write(of_static(Q, 4), Kind::U8, 1),
        Line::Put { to: 0, number: 3 },
        Line::Call {
            to: 0,
            function: 0,
            first: 0,
            count: 1,
        },
        read(1, of_static(Q, 4), Kind::U8),
        compute(0, BinaryOp::Add, 0, 1),
        Line::Serve {
            to: 0,
            service: Service::Putchar,
            from: Some(0),
        },
        read(0, of_static(Q, 0), Kind::I32),
    ];
    push(alloc, &mut blocks, &lines, Exit::Return(Some(0)))?;
    Ok(blocks)
}

/// The cells of an `int`.
const INT_CELLS: [Cell; 1] = [Cell {
    offset: 0,
    kind: Kind::I32,
}];

/// Those of an `int` and an `unsigned char`.
const PAIR_CELLS: [Cell; 2] = [
    Cell {
        offset: 0,
        kind: Kind::I32,
    },
    Cell {
        offset: 4,
        kind: Kind::U8,
    },
];

fn object(alloc: Global, size: u32, cells: &[Cell]) -> Result<Object, Stop> {
    Ok(Object {
        size,
        cells: Vec::from_slice(alloc, cells)?,
    })
}

fn add(alloc: Global) -> Result<Function, Stop> {
    let blocks = add_blocks(alloc)?;
    let mut objects = Vec::new(alloc);
    objects.push(object(alloc, 4, &INT_CELLS)?)?;
    Ok(Function {
        nodes: 16,
        need: 208,
        registers: Registers::Virtual,
        register_count: 3,
        parameters: 1,
        first_parameter: 0,
        first_object: N,
        objects,
        slots: 0,
        blocks,
        entry: 3,
    })
}

fn main_of(alloc: Global) -> Result<Function, Stop> {
    Ok(Function {
        nodes: 14,
        need: 184,
        registers: Registers::Virtual,
        register_count: 2,
        parameters: 0,
        first_parameter: 0,
        first_object: 4,
        objects: Vec::new(alloc),
        slots: 0,
        blocks: main_blocks(alloc)?,
        entry: 0,
    })
}

fn functions(alloc: Global) -> Result<Vec<Function>, Stop> {
    let mut functions = Vec::new(alloc);
    functions.push(add(alloc)?)?;
    functions.push(main_of(alloc)?)?;
    Ok(functions)
}

fn static_of(
    alloc: Global,
    name: &[u8],
    size: u32,
    cells: &[Cell],
    numbers: &[i128],
) -> Result<Static, Stop> {
    let mut values = Vec::new(alloc);
    for number in numbers {
        values.push(Constant::Number(*number))?;
    }
    Ok(Static {
        object: object(alloc, size, cells)?,
        name: Vec::from_slice(alloc, name)?,
        values,
    })
}

fn statics(alloc: Global) -> Result<Vec<Static>, Stop> {
    let mut statics = Vec::new(alloc);
    statics.push(static_of(alloc, b"p", 8, &PAIR_CELLS, &[5, 7])?)?;
    statics.push(static_of(alloc, b"q", 8, &PAIR_CELLS, &[0, 0])?)?;
    statics.push(static_of(alloc, b"s", 4, &INT_CELLS, &[0])?)?;
    Ok(statics)
}

fn unit_of(alloc: Global) -> Result<Unit, Stop> {
    Ok(Unit {
        statics: statics(alloc)?,
        functions: functions(alloc)?,
        main: 1,
    })
}

// What comes of the unit, where it ends within so many steps.
fn outcome(alloc: Global, stack: u32, fuel: u64, steps: u64) -> Result<Option<Outcome>, Stop> {
    let setting = Setting {
        frames: &[32, 16],
        stack,
        capacity: 1,
        input: &[],
    };
    Ok(run(alloc, &unit_of(alloc)?, setting, fuel, steps)?)
}

/// `unit`, a name, bytes of stack, fuel, steps: the unit is interpreted.
pub(crate) fn unit(row: &Row<'_>, case: &mut Case) {
    let stack = case.small(row.field(2));
    let fuel = u64::from(case.small(row.field(3)));
    let steps = u64::from(case.small(row.field(4)));
    match outcome(case.alloc, stack, fuel, steps) {
        Ok(Some(outcome)) => tell_outcome(&outcome, case),
        Ok(None) => case.say(" too many steps"),
        Err(stop) => case.end(stop),
    }
}
