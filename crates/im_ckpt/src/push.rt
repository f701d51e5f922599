ghost use Rattle.std.specs.Prelude.{◌≡◌, ◌++◌, ◌∷◌, [], OnOk, map};
ghost use Rattle.im_rv.specs.Lines.{code_lines, line_of, plain_line};
ghost use Rattle.im_ckpt.specs.Checkpoint.{labelled};

use im_num::NoMemory;
use im_rv::{Instr, Line, plain};

/// Adds an instruction.
pub(crate) fn push(lines: &mut Vec<Line>, instr: Instr) -> Result<(), NoMemory>
    ensures { OnOk result
        (code_lines lines.new.items ≡ code_lines lines.old.items ++ plain_line (line_of instr) ∷ []) }
{
    lines.push(plain(instr))?;
    Ok(())
}

/// Adds an instruction that has a label.
pub(crate) fn push_labelled(lines: &mut Vec<Line>, label: u8, instr: Instr) -> Result<(), NoMemory>
    ensures { OnOk result (code_lines lines.new.items
        ≡ code_lines lines.old.items ++ labelled label (line_of instr) ∷ []) }
{
    let mut line = plain(instr);
    line.label = Some(u32::from(label));
    lines.push(line)?;
    Ok(())
}

/// Adds instructions.
pub(crate) fn push_all(lines: &mut Vec<Line>, instrs: &[Instr]) -> Result<(), NoMemory>
    ensures { OnOk result (code_lines lines.new.items
        ≡ code_lines lines.old.items ++ map (λ i. plain_line (line_of i)) instrs.now) }
{
    for instr in instrs {
        push(lines, *instr)?;
    }
    Ok(())
}
