ghost use Rattle.std.specs.Prelude.{◌≡◌, ◌<◌, ◌≤◌, ◌++◌, ◌∷◌, [], OnOk, IfOk, IsTrue, map};
ghost use Rattle.std.specs.Prelude.{slice_set, replicate};
ghost use Rattle.im_rv.specs.Lines.{code_lines, plain_line};
ghost use Rattle.im_ckpt.specs.Recovery.{half_lines, load_line, load_lines, recovery};
ghost use Rattle.im_ckpt.specs.Registers.{are_registers};

use crate::push::push;
use im_num::NoMemory;
use im_rv::Line;
use im_rv::assembler::{bne, jalr, lw};
use std::alloc::Global;

/// The registers that a buffer keeps beside the resume pc. x3 and x4 are the runtime's own.
const KEPT: [u8; 29] = [
    1, 2, 5, 6, 7, 8, 9, 10, 11, 12, 13, 14, 15, 16, 17, 18, 19, 20, 21, 22, 23, 24, 25, 26, 27,
    28, 29, 30, 31,
];

/// The words of a register buffer from which recovery goes to `start`, an address of code, with the
/// stack pointer (x2) at `sp`, a byte address, and every other register 0. Word 0 of a buffer is
/// the place to go on at, word i the value of register xi.
pub fn boot_buffer(start: u32, sp: u32) -> [u32; 32]
    ensures { result ≡ slice_set (slice_set (replicate 32 0) 0 start) 2 sp }
{
    let mut words = [0; 32];
    words[0] = start;
    words[2] = sp;
    words
}

/// Loads a register from an address below 2048.
fn push_load(lines: &mut Vec<Line>, register: u8, at: u16) -> Result<(), NoMemory>
    requires register { register < 32 }
    requires near { at < 2048 }
    ensures { OnOk result (code_lines lines.new.items
        ≡ code_lines lines.old.items ++ plain_line (load_line register at) ∷ []) }
{
    push(lines, lw(register, i32::from(at), 0))
}

/// Loads these registers from the buffer at `base`, a byte address.
fn push_loads(lines: &mut Vec<Line>, base: u16, registers: &[u8]) -> Result<(), NoMemory>
    requires near { base ≤ 256 }
    requires named { IsTrue (are_registers registers.now) }
    ensures { OnOk result (code_lines lines.new.items
        ≡ code_lines lines.old.items ++ map plain_line (load_lines base registers.now)) }
{
    for register in registers {
        push_load(lines, *register, base + 4 * u16::from(*register))?;
    }
    Ok(())
}

/// Restores all registers from the buffer at `base`, and goes to the place that it names.
fn push_half(lines: &mut Vec<Line>, base: u16) -> Result<(), NoMemory>
    requires { base ≤ 256 }
    ensures { OnOk result (code_lines lines.new.items
        ≡ code_lines lines.old.items ++ map plain_line (half_lines base)) }
{
    push_load(lines, 3, base)?;
    push_loads(lines, base, &KEPT)?;
    push(lines, jalr(0, 0, 3))?;
    Ok(())
}

/// The lines of recovery, 64 in all, which stand at 0x1000: they restore the registers of the live
/// buffer and go to the place that it names.
pub fn recovery_lines(alloc: Global) -> Result<Vec<Line>, NoMemory>
    ensures { IfOk result (λ lines. code_lines lines.items ≡ map plain_line recovery) }
{
    let mut lines = Vec::new(alloc);
    push_load(&mut lines, 4, 0)?;
    push(&mut lines, bne(4, 0, 128))?;
    push_half(&mut lines, 128)?;
    push_half(&mut lines, 256)?;
    Ok(lines)
}
