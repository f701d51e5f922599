ghost use Rattle.std.specs.Prelude.{◌≡◌, ◌<◌, ◌^◌, OnOk, IfOk, codes};
ghost use Rattle.im_rv.specs.Lines.{code_lines};
ghost use Rattle.im_link.specs.Linking.{Grows};
ghost use Rattle.im_select.specs.Emitted.{entry_label};
ghost use Rattle.im_link_laws.specs.Program.{start_code};
ghost use Rattle.im_select_assemble.specs.Assembled.{AddsNamed, HasRuntime};

use im_ckpt::{checkpoint_lines, recovery_lines};
use im_link::Linker;
use im_num::NoMemory;
use im_rtlib::{FIRST_FREE, exit_lines, getchar_lines, putchar_lines, stack_lines};
use im_rv::assembler::jal;
use im_rv::{Line, Part, plain};
use std::alloc::Global;

/// Adds a part, whose lines are given back then.
pub(crate) fn push_part(
    alloc: Global,
    linker: &mut Linker,
    name: &str,
    lines: Vec<Line>,
) -> Result<(), NoMemory>
    ensures { OnOk result
        (Grows linker.old linker.new (AddsNamed (code_lines lines.items) name.now)) }
{
    let name = String::from_str(alloc, name)?;
    let part = Part { name, lines };
    linker.add(alloc, &part)?;
    Ok(())
}

/// Recovery, the checkpoint, and the routines.
pub(crate) fn runtime_parts(alloc: Global) -> Result<Linker, NoMemory>
    ensures { IfOk result HasRuntime }
{
    let mut linker = Linker::new(alloc);
    push_part(alloc, &mut linker, "recovery", recovery_lines(alloc)?)?;
    push_part(alloc, &mut linker, "checkpoint", checkpoint_lines(alloc)?)?;
    push_part(alloc, &mut linker, "getchar", getchar_lines(alloc)?)?;
    push_part(alloc, &mut linker, "putchar", putchar_lines(alloc)?)?;
    push_part(alloc, &mut linker, "stack", stack_lines(alloc)?)?;
    Ok(linker)
}

/// The call of main, and behind it the end of a program that has returned.
fn start_lines(alloc: Global, main: u32) -> Result<Vec<Line>, NoMemory>
    requires { entry_label main < 2 ^ 32 }
    ensures { IfOk result (λ lines. code_lines lines.items ≡ start_code main) }
{
    let mut call = plain(jal(1, 0));
    call.target = Some(FIRST_FREE + main);
    let mut lines = Vec::new(alloc);
    lines.push(call)?;
    lines.extend_from_slice(&exit_lines(alloc)?)?;
    Ok(lines)
}

/// Adds the lines that begin.
pub(crate) fn push_start(alloc: Global, linker: &mut Linker, main: u32) -> Result<(), NoMemory>
    requires { entry_label main < 2 ^ 32 }
    ensures { OnOk result
        (Grows linker.old linker.new (AddsNamed (start_code main) (codes "start"))) }
{
    push_part(alloc, linker, "start", start_lines(alloc, main)?)?;
    Ok(())
}
