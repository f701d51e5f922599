ghost use Rattle.std.specs.Prelude.{◌≡◌, ◌+◌, max, map, [], length, IfOk, OnOk};
ghost use Rattle.im_block.specs.declared.code.Block.{Block};
ghost use Rattle.im_lower_relation.specs.Codes.{ends};
ghost use Rattle.im_lower_plain.specs.Made.{Made, above_exit, above_line, above_place, close};
ghost use Rattle.im_lower_plain.specs.Made.{point_of, put, put_read, put_write, start, turn};

use im_block::{Block, Exit, Line, Place};
use im_num::{Kind, NoMemory, beyond_memory};
use std::alloc::Global;
use std::mem;

/// The code of a function while it is made, from its end to its start: the blocks so far, and an
/// open block, before whose lines others are put.
#[derive(Drop)]
pub(crate) struct Builder {
    alloc: Global,
    blocks: Vec<Block>,
    lines: Vec<Line>,
    exit: Exit,
    accesses: u64,
    registers: u32,
}

/// The blocks of a function, the number of the access that follows those in it, and how many
/// registers it uses.
#[derive(Drop)]
pub(crate) struct Finished {
    pub(crate) blocks: Vec<Block>,
    pub(crate) accesses: u64,
    pub(crate) registers: u32,
}

/// The numbers of the blocks where a test goes on, if it holds and if it doesn't.
#[derive(Clone, Copy)]
pub(crate) struct Targets {
    pub(crate) holds: u32,
    pub(crate) fails: u32,
}

impl std::marker::Model for Builder {
    ghost use Rattle.im_lower_plain.specs.Made.{Made};

    ghost Value = { Made };

    ghost use Rattle.std.specs.Prelude.{map, reverse};
    ghost use Rattle.im_block.specs.declared.code.Block.{Block};
    ghost use Rattle.im_lower_plain.specs.Made.{point_of};

    ghost view = { λ b. record {
      blocks = map {A = Block} point_of b.blocks.items;
      point = record
          { rest = reverse b.lines.items; exit = b.exit };
      accesses = b.accesses;
      registers =
          b.registers;
    } };
}

impl Builder {
    /// No code yet. The function's first access has this number.
    pub(crate) fn new(alloc: Global, accesses: u64) -> Builder
        ensures { result ≡ record {
          blocks = [];
          point = ends (Exit.Return None);
          accesses =
              accesses;
          registers = 0;
        } }
    {
        Builder {
            alloc,
            blocks: Vec::new(alloc),
            lines: Vec::new(alloc),
            exit: Exit::Return(None),
            accesses,
            registers: 0,
        }
    }

    /// The allocator.
    pub(crate) fn alloc(&self) -> Global {
        self.alloc
    }

    /// Puts a line before the open block.
    #[tactic(auto, unfolding(im_lower_plain::specs::Made::put))]
    pub(crate) fn put(&mut self, line: Line) -> Result<(), NoMemory>
        ensures { OnOk result (self.new ≡ put line self.old) }
    {
        let registers = above_line(line)?;
        self.registers = self.registers.max(registers);
        self.lines.push(line)?;
        Ok(())
    }

    /// Puts a read of a cell before the open block.
    #[tactic(auto, unfolding(im_lower_plain::specs::Made::put_read))]
    pub(crate) fn put_read(&mut self, to: u32, place: Place, kind: Kind) -> Result<(), NoMemory>
        ensures { OnOk result (self.new ≡ put_read to place kind self.old) }
    {
        let access = self.accesses;
        self.accesses = next_access(access)?;
        self.put(Line::Read {
            to,
            place,
            kind,
            access,
        })
    }

    /// Puts a write of a cell before the open block.
    #[tactic(auto, unfolding(im_lower_plain::specs::Made::put_write))]
    pub(crate) fn put_write(&mut self, place: Place, kind: Kind, from: u32) -> Result<(), NoMemory>
        ensures { OnOk result (self.new ≡ put_write place kind from self.old) }
    {
        let access = self.accesses;
        self.accesses = next_access(access)?;
        self.put(Line::Write {
            place,
            kind,
            from,
            access,
        })
    }

    /// Makes the open block one of the function's, and gives its number. What is open then is a
    /// jump to it.
    #[tactic(auto, unfolding(im_lower_plain::specs::Made::close))]
    pub(crate) fn close(&mut self) -> Result<u32, NoMemory>
        ensures number { IfOk result (λ n. n ≡ length self.old.blocks) }
        ensures closed { OnOk result (self.new ≡ close self.old) }
    {
        let Ok(number) = u32::try_from(self.blocks.len()) else {
            return Err(beyond_memory());
        };
        let mut lines = mem::replace(&mut self.lines, Vec::new(self.alloc));
        lines.reverse();
        self.blocks.push(Block {
            lines,
            exit: self.exit,
        })?;
        self.exit = Exit::Jump(number);
        Ok(number)
    }

    /// Drops the open block, and opens one without lines that ends so.
    #[tactic(auto, unfolding(im_lower_plain::specs::Made::start))]
    pub(crate) fn start(&mut self, exit: Exit) -> Result<(), NoMemory>
        ensures { OnOk result (self.new ≡ start exit self.old) }
    {
        let registers = above_exit(exit)?;
        self.registers = self.registers.max(registers);
        self.lines.clear();
        self.exit = exit;
        Ok(())
    }

    /// The code, when all is made.
    pub(crate) fn finish(self) -> Finished
        ensures blocks { map {A = Block} point_of result.blocks.items ≡ self.blocks }
        ensures accesses { result.accesses ≡ self.accesses }
        ensures registers { result.registers ≡ self.registers }
    {
        Finished {
            blocks: self.blocks,
            accesses: self.accesses,
            registers: self.registers,
        }
    }

    /// Makes a block, which was made before the loop's body, the loop edge to that body.
    #[tactic(auto, unfolding(im_lower_plain::specs::Made::turn))]
    pub(crate) fn turn(&mut self, block: u32, body: u32)
        ensures { self.new ≡ turn block body self.old }
    {
        let index = block as usize;
        let edge = Block {
            lines: Vec::new(self.alloc),
            exit: Exit::Turn(body),
        };
        if index < self.blocks.len() {
            self.blocks[index] = edge;
        }
    }
}

fn next_access(access: u64) -> Result<u64, NoMemory>
    ensures { IfOk result (λ n. n ≡ access + 1) }
{
    access.checked_add(1).ok_or(beyond_memory())
}

/// A sum of two numbers of objects, registers or bytes. No program that fits in memory exceeds it.
pub(crate) fn sum(left: u32, right: u32) -> Result<u32, NoMemory>
    ensures { IfOk result (λ n. n ≡ left + right) }
{
    left.checked_add(right).ok_or(beyond_memory())
}

/// The register that follows.
pub(crate) fn next(register: u32) -> Result<u32, NoMemory>
    ensures { IfOk result (λ n. n ≡ register + 1) }
{
    register.checked_add(1).ok_or(beyond_memory())
}

/// The first register above that of a place.
fn above_place(place: Place) -> Result<u32, NoMemory>
    ensures { IfOk result (λ n. n ≡ above_place place) }
{
    match place {
        Place::Static { .. } | Place::Local { .. } => Ok(0),
        Place::Through { pointer, .. } => next(pointer),
    }
}

/// The first register above those of a line.
fn above_line(line: Line) -> Result<u32, NoMemory>
    ensures { IfOk result (λ n. n ≡ above_line line) }
{
    match line {
        Line::Put { to, .. }
        | Line::PutNull { to }
        | Line::Serve { to, from: None, .. }
        | Line::Reload { to, .. } => { next(to) }
        Line::Copy { to, from }
        | Line::Convert { to, from, .. }
        | Line::Unary { to, from, .. }
        | Line::Not { to, from }
        | Line::Serve {
            to,
            from: Some(from),
            ..
        } => Ok(next(to)?.max(next(from)?)),
        Line::Compute {
            to,
            left,
            right,
            ..
        }
        | Line::Compare {
            to,
            left,
            right,
            ..
        }
        | Line::Move {
            to,
            pointer: left,
            by: right,
            ..
        }
        | Line::Distance {
            to,
            left,
            right,
            ..
        } => { Ok(next(to)?.max(next(left)?.max(next(right)?))) }
        Line::Address { to, place } | Line::Read { to, place, .. } => {
            Ok(next(to)?.max(above_place(place)?))
        }
        Line::Write { place, from, .. } => Ok(next(from)?.max(above_place(place)?)),
        Line::Spill { from, .. } => next(from),
        Line::Cut(_) => Ok(0),
        Line::Call {
            to,
            first,
            count,
            ..
        } => {
            let end = first.checked_add(count).ok_or(beyond_memory())?;
            Ok(next(to)?.max(end))
        }
    }
}

/// The first register above that of an exit.
fn above_exit(exit: Exit) -> Result<u32, NoMemory>
    ensures { IfOk result (λ n. n ≡ above_exit exit) }
{
    match exit {
        Exit::Jump(_) | Exit::Turn(_) | Exit::Return(None) => Ok(0),
        Exit::Branch { on, .. } => next(on),
        Exit::Return(Some(register)) => next(register),
    }
}
