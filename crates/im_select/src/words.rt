ghost use Rattle.std.specs.Prelude.{◌≡◌, ◌<◌, ◌++◌, ◌↔◌, pos, OnOk, IfOk, IsTrue};
ghost use Rattle.im_num.specs.Kinds as kinds;
ghost use Rattle.im_rv.specs.Fits.{in_bits, in_signed};
ghost use Rattle.im_rv.specs.Steps as steps;
ghost use Rattle.im_rv.specs.Lines.{code_lines};
ghost use Rattle.im_select.specs.Emitted.{high_of, low_of, constant_code, displaced_code};
ghost use Rattle.im_select.specs.Emitted.{displaced_base, adds_code};
ghost use Rattle.im_select.specs.Places.{IsDisplaced};

use crate::push::push;
use im_num::NoMemory;
use im_rv::Line;
use im_rv::assembler::{add, addi, lui};

/// An address: a register plus an offset of 12 bits with its sign.
#[derive(Clone, Copy)]
pub(crate) struct Displaced {
    pub base: u8,
    pub low: i32,
}

/// A register of the machine.
pub(crate) fn register(number: u32) -> u8
    requires { number < 32 }
    ensures { result ≡ number }
{
    number as u8
}

/// The 32 bits of a number.
pub(crate) fn to_word(number: i128) -> u32
    ensures { result ≡ kinds.word number }
{
    number.rem_euclid(1 << 32) as u32
}

/// The upper 20 bits of a word for `lui`, one more where the lower part is negative (RISC-V
/// Unprivileged ISA, 2.4).
pub(crate) fn high_part(word: u32) -> i32
    ensures value { steps.word result ≡ high_of word }
    ensures bits { IsTrue (in_bits 20 result) }
    ensures zero { (result ≡ pos 0) ↔ (high_of word ≡ 0) }
{
    (word.wrapping_add(2048) / 4096) as i32
}

/// The lower 12 bits of a word, with their sign.
pub(crate) fn low_part(word: u32) -> i32
    ensures value { steps.word result ≡ low_of word }
    ensures bits { IsTrue (in_signed 11 result) }
{
    let low = (word % 4096) as i32;
    if low < 2048 { low } else { low - 4096 }
}

/// Puts a word into rd.
pub(crate) fn push_constant(lines: &mut Vec<Line>, rd: u8, word: u32) -> Result<(), NoMemory>
    requires { rd < 32 }
    ensures { OnOk result (code_lines lines.new.items
        ≡ code_lines lines.old.items ++ constant_code rd word) }
{
    let high = high_part(word);
    let low = low_part(word);
    if high == 0 {
        push(lines, addi(rd, 0, low))?;
        return Ok(());
    }
    push(lines, lui(rd, high))?;
    push(lines, addi(rd, rd, low))?;
    Ok(())
}

/// A register plus a word as an address; x5 may be used.
pub(crate) fn push_displaced(
    lines: &mut Vec<Line>,
    register: u8,
    word: u32,
) -> Result<Displaced, NoMemory>
    requires { register < 32 }
    ensures grows { OnOk result (code_lines lines.new.items
        ≡ code_lines lines.old.items ++ displaced_code register word) }
    ensures gives { IfOk result (λ d. IsDisplaced d (displaced_base register word) word) }
{
    let high = high_part(word);
    let low = low_part(word);
    if high == 0 {
        return Ok(Displaced {
            base: register,
            low,
        });
    }
    push(lines, lui(5, high))?;
    push(lines, add(5, 5, register))?;
    Ok(Displaced { base: 5, low })
}

/// Puts the stack pointer plus a word into rd; x5 may be used.
pub(crate) fn push_added(lines: &mut Vec<Line>, rd: u8, word: u32) -> Result<(), NoMemory>
    requires { rd < 32 }
    ensures { OnOk result (code_lines lines.new.items
        ≡ code_lines lines.old.items ++ adds_code rd word) }
{
    let high = high_part(word);
    let low = low_part(word);
    if high == 0 {
        push(lines, addi(rd, 2, low))?;
        return Ok(());
    }
    push_constant(lines, 5, word)?;
    push(lines, add(rd, 2, 5))?;
    Ok(())
}
