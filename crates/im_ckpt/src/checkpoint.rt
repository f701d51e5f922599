ghost use Rattle.std.specs.Prelude.{◌≡◌, ◌<◌, ◌≤◌, ◌++◌, ◌∷◌, [], OnOk, IfOk, IsTrue, map};
ghost use Rattle.im_rv.specs.Lines.{code_lines, plain_line};
ghost use Rattle.im_ckpt.specs.Buffers.{slot};
ghost use Rattle.im_ckpt.specs.Checkpoint.{checkpoint_code, entries, entry_code, store_line};
ghost use Rattle.im_ckpt.specs.Registers.{are_registers};

use crate::push::{push, push_all, push_labelled};
use im_num::NoMemory;
use im_rv::Line;
use im_rv::assembler::{addi, jal, jalr, lw, slli, srli, sw, xori};
use std::alloc::Global;

/// The registers that the ladder stores, in order. x3 holds the place to go on at.
const LADDER: [u8; 30] = [
    31, 30, 29, 28, 27, 26, 25, 24, 23, 22, 21, 20, 19, 18, 17, 16, 15, 14, 13, 12, 11, 10, 9, 8,
    7, 6, 5, 1, 2, 3,
];

/// Where a buffer has a register, in bytes from its start.
fn slot_of(register: u8) -> u16
    requires { register < 32 }
    ensures value { result ≡ slot register }
    ensures near { result < 128 }
{
    if register == 3 {
        0
    } else {
        4 * u16::from(register)
    }
}

/// Entry Em, which saves x1, x2, x5 to xm.
fn push_entry(lines: &mut Vec<Line>, m: u8) -> Result<(), NoMemory>
    requires { m < 32 }
    ensures { OnOk result (code_lines lines.new.items
        ≡ code_lines lines.old.items ++ entry_code m) }
{
    let to_ladder = i32::from(748 - 24 * u16::from(m));
    let others = [
        xori(4, 4, 1),
        slli(4, 4, 7),
        addi(4, 4, 128),
        jal(0, to_ladder),
    ];
    push_labelled(lines, m, lw(4, 0, 0))?;
    push_all(lines, &others)?;
    Ok(())
}

/// Entries E4 to E31.
fn push_entries(lines: &mut Vec<Line>) -> Result<(), NoMemory>
    ensures { OnOk result (code_lines lines.new.items
        ≡ code_lines lines.old.items ++ entries 28) }
{
    for n in 0..28 {
        push_entry(lines, n + 4)?;
    }
    Ok(())
}

/// Stores a register at its place of the buffer that x4 points to.
fn push_store(lines: &mut Vec<Line>, register: u8) -> Result<(), NoMemory>
    requires { register < 32 }
    ensures { OnOk result (code_lines lines.new.items
        ≡ code_lines lines.old.items ++ plain_line (store_line register) ∷ []) }
{
    push(lines, sw(register, i32::from(slot_of(register)), 4))
}

/// Stores these registers.
fn push_stores(lines: &mut Vec<Line>, registers: &[u8]) -> Result<(), NoMemory>
    requires { IsTrue (are_registers registers.now) }
    ensures { OnOk result (code_lines lines.new.items
        ≡ code_lines lines.old.items ++ map plain_line (map store_line registers.now)) }
{
    for register in registers {
        push_store(lines, *register)?;
    }
    Ok(())
}

/// The lines of the checkpoint routine, 173 in all, which stand at 0x1100: entries E4 to E31 of
/// five lines each, and one ladder. A cut is `jal x3, Em` where x5 to xm are to be saved; the label
/// of entry Em is m.
pub fn checkpoint_lines(alloc: Global) -> Result<Vec<Line>, NoMemory>
    ensures { IfOk result (λ lines. code_lines lines.items ≡ checkpoint_code) }
{
    let mut lines = Vec::new(alloc);
    push_entries(&mut lines)?;
    push_stores(&mut lines, &LADDER)?;
    push_all(&mut lines, &[srli(4, 4, 8), sw(4, 0, 0), jalr(0, 0, 3)])?;
    Ok(lines)
}
