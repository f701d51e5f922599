ghost use Rattle.std.specs.Prelude.{◌≡◌, ◌<◌, ◌++◌, ◌∷◌, [], OnOk, IsTrue, pos};
ghost use Rattle.im_rv.specs.Fits.{fits};
ghost use Rattle.im_rv.specs.Steps.{word};
ghost use Rattle.im_rv.specs.Lines.{code_lines, line_of, plain_line, instruction};
ghost use Rattle.im_rtlib.specs.Routines.{aimed, numbered};
ghost use Rattle.im_select.specs.Emitted.{call_code, cut_code};

use im_num::{Cause, NoMemory};
use im_rv::assembler::jal;
use im_rv::{Instr, Line, Op, plain};

/// Adds an instruction.
pub(crate) fn push(lines: &mut Vec<Line>, instr: Instr) -> Result<(), NoMemory>
    ensures { OnOk result
        (code_lines lines.new.items
        ≡ code_lines lines.old.items ++ plain_line (line_of instr) ∷ []) }
{
    lines.push(plain(instr))?;
    Ok(())
}

/// Adds a load or store that is an access of the code.
pub(crate) fn push_numbered(
    lines: &mut Vec<Line>,
    access: u64,
    instr: Instr,
) -> Result<(), NoMemory>
    ensures { OnOk result (code_lines lines.new.items
        ≡ code_lines lines.old.items ++ numbered access (line_of instr) ∷ []) }
{
    let mut line = plain(instr);
    line.access = Some(access);
    lines.push(line)?;
    Ok(())
}

/// Adds a jump to a label, which leaves its return address in rd.
pub(crate) fn push_jump(lines: &mut Vec<Line>, rd: u8, label: u32) -> Result<(), NoMemory>
    requires { rd < 32 }
    ensures { OnOk result (code_lines lines.new.items
        ≡ code_lines lines.old.items ++ call_code rd label) }
{
    let mut line = plain(jal(rd, 0));
    line.target = Some(label);
    lines.push(line)?;
    Ok(())
}

/// Adds a branch to a label.
pub(crate) fn push_aimed(lines: &mut Vec<Line>, instr: Instr, label: u32) -> Result<(), NoMemory>
    ensures { OnOk result (code_lines lines.new.items
        ≡ code_lines lines.old.items ++ aimed label (line_of instr) ∷ []) }
{
    let mut line = plain(instr);
    line.target = Some(label);
    lines.push(line)?;
    Ok(())
}

/// Adds a cut, by the entry of the checkpoint, which is the last register that it saves.
pub(crate) fn push_cut(lines: &mut Vec<Line>, cause: Cause, entry: u32) -> Result<(), NoMemory>
    ensures { OnOk result (code_lines lines.new.items
        ≡ code_lines lines.old.items ++ cut_code entry cause) }
{
    let mut line = plain(jal(3, 0));
    line.target = Some(entry);
    line.cause = Some(cause);
    lines.push(line)?;
    Ok(())
}

/// An operation on registers.
pub(crate) fn on_registers(op: Op, rd: u8, rs1: u8, rs2: u8) -> Instr
    requires { IsTrue (fits op rd rs1 rs2 (pos 0)) }
    ensures { line_of result ≡ instruction op rd rs1 rs2 0 }
{
    Instr {
        op,
        rd,
        rs1,
        rs2,
        imm: 0,
    }
}

/// An operation on a register and an immediate.
pub(crate) fn with_immediate(op: Op, rd: u8, rs1: u8, imm: i32) -> Instr
    requires { IsTrue (fits op rd rs1 0 imm) }
    ensures { line_of result ≡ instruction op rd rs1 0 (word imm) }
{
    Instr {
        op,
        rd,
        rs1,
        rs2: 0,
        imm,
    }
}

/// A store of a register.
pub(crate) fn storing(op: Op, rs1: u8, rs2: u8, imm: i32) -> Instr
    requires { IsTrue (fits op 0 rs1 rs2 imm) }
    ensures { line_of result ≡ instruction op 0 rs1 rs2 (word imm) }
{
    Instr {
        op,
        rd: 0,
        rs1,
        rs2,
        imm,
    }
}
