ghost use Rattle.std.specs.Prelude.{◌≡◌};
ghost use Rattle.im_rv.specs.Lines.{line_of};
ghost use Rattle.im_rv.specs.Decode.{Line, decode as decoded};
ghost use Rattle.im_gap.specs.Flow.{turn_of, turn_by, imm_of, links, is_flip};
ghost use Rattle.im_gap.specs.Table.{index_of};

use im_num::NoMemory;
use im_rv::decode::decode;
use im_rv::{Instr, Op};

/// How an instruction goes on.
#[derive(Clone, Copy, PartialEq, Eq, Debug)]
pub enum Turn {
    /// To the next word.
    Passes,
    /// To the target of a `jal`.
    Jumps,
    /// To the next word or the target of a branch.
    Branches,
    /// To each word after a call.
    Returns,
    /// Nowhere: a flip, a halt, or no instruction.
    Stops,
}

/// How a word goes on, and the immediate that a target is reached by.
#[derive(Clone, Copy, Debug)]
pub struct Way {
    pub turn: Turn,
    pub imm: u32,
}

// whether a word store is `sw x4, 0(x0)`
fn flips(instr: &Instr) -> bool
    ensures { result ≡ is_flip (line_of instr.now) }
{
    instr.rs1 == 0 && instr.rs2 == 4 && instr.imm.cast_unsigned() == 0
}

fn instruction_turn(instr: &Instr) -> Turn
    ensures { result ≡ turn_by instr.now.op (line_of instr.now) }
{
    match instr.op {
        Op::Jal => Turn::Jumps,
        Op::Jalr => Turn::Returns,
        Op::Beq | Op::Bne | Op::Blt | Op::Bge | Op::Bltu | Op::Bgeu => Turn::Branches,
        Op::Sw => {
            if flips(instr) {
                Turn::Stops
            } else {
                Turn::Passes
            }
        }
        Op::Ebreak => Turn::Stops,
        _ => Turn::Passes,
    }
}

/// The way of a word.
pub fn way_of(word: u32) -> Way
    ensures turn { result.turn ≡ turn_of (decoded word) }
    ensures imm { result.imm ≡ imm_of (decoded word) }
{
    match decode(word) {
        None => Way {
            turn: Turn::Stops,
            imm: 0,
        },
        Some(instr) => Way {
            turn: instruction_turn(&instr),
            imm: instr.imm.cast_unsigned(),
        },
    }
}

/// Whether a word is a `jal` that links this register.
pub fn links_register(word: u32, register: u8) -> bool
    ensures { result ≡ links register (decoded word) }
{
    match decode(word) {
        None => false,
        Some(instr) => instr.op == Op::Jal && instr.rd == register,
    }
}

/// The number of the word at an address of code, if one of this many stands there.
pub fn index_at(count: u32, address: u32) -> Option<u32>
    ensures { result ≡ index_of count address }
{
    if address < 4096 || (address - 4096) % 4 != 0 {
        return None;
    }
    let index = (address - 4096) / 4;
    if index < count { Some(index) } else { None }
}
