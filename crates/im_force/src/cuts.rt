ghost use Rattle.std.specs.Prelude.{◌≡◌, IfOk, OnOk};
ghost use Rattle.im_force.specs.Force.{Forces, ForcesBlock, ForcesFunction, forced_lines};
ghost use Rattle.im_force.specs.Force.{due_at, due_behind};

use im_block::{Block, Exit, Function, Line, Unit};
use im_num::{Cause, NoMemory};
use std::alloc::Global;

/// The unit with its forced cuts: at the entry of each function, behind each call, on each loop
/// edge; nowhere else.
pub fn force(alloc: Global, mut unit: Unit) -> Result<Unit, NoMemory>
    ensures { IfOk result (λ forced. Forces unit forced) }
{
    for function in unit.functions.iter_mut() {
        force_function(alloc, function)?;
    }
    Ok(unit)
}

fn force_function(alloc: Global, function: &mut Function) -> Result<(), NoMemory>
    ensures { OnOk result (ForcesFunction function.old function.new) }
{
    let entry = function.entry as usize;
    for (number, block) in function.blocks.iter_mut().enumerate() {
        let due = if number == entry {
            Some(Cause::Entry)
        } else {
            None
        };
        force_block(alloc, block, due)?;
    }
    Ok(())
}

fn force_block(alloc: Global, block: &mut Block, due: Option<Cause>) -> Result<(), NoMemory>
    ensures { OnOk result (ForcesBlock due block.old block.new) }
{
    let lines = force_lines(alloc, &block.lines, due, block.exit)?;
    block.lines = lines;
    Ok(())
}

/// The lines of a block with their cuts. `start` is the cause of a cut before the first one.
fn force_lines(
    alloc: Global,
    lines: &[Line],
    start: Option<Cause>,
    exit: Exit,
) -> Result<Vec<Line>, NoMemory>
    ensures { IfOk result (λ forced. forced.items ≡ forced_lines exit start lines.now) }
{
    let mut forced = Vec::new(alloc);
    let mut due = start;
    for line in lines {
        if let Some(cause) = due {
            forced.push(Line::Cut(cause))?;
        }
        forced.push(*line)?;
        due = behind(*line);
    }
    if let Some(cause) = at_exit(due, exit) {
        forced.push(Line::Cut(cause))?;
    }
    Ok(forced)
}

/// The cause of a cut behind a line.
fn behind(line: Line) -> Option<Cause>
    ensures { result ≡ due_behind line }
{
    match line {
        Line::Call { .. } | Line::Serve { .. } => Some(Cause::Return),
        _ => None,
    }
}

/// The cause of a cut before a block's exit.
fn at_exit(due: Option<Cause>, exit: Exit) -> Option<Cause>
    ensures { result ≡ due_at due exit }
{
    match (due, exit) {
        (Some(cause), _) => Some(cause),
        (None, Exit::Turn(_)) => Some(Cause::Loop),
        (None, _) => None,
    }
}
