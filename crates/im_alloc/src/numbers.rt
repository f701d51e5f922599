ghost use Rattle.std.specs.Prelude.{◌≡◌, ◌<◌, ◌+◌, ◌^◌, IfOk};
ghost use Rattle.im_alloc.specs.Numbers.{past_line, past_lines, past_blocks, past_functions};

use im_block::{Block, Function, Line};
use im_num::{NoMemory, beyond_memory};

/// The number behind those that a line keeps. Numbers that pass 64 bits count as want of memory: so
/// many lines have no room.
pub(crate) fn behind(number: u64) -> Result<u64, NoMemory>
    ensures { IfOk result (λ next. next ≡ number + 16) }
{
    match number.checked_add(16) {
        Some(next) => Ok(next),
        None => Err(beyond_memory()),
    }
}

/// A number, or the one behind an access where that is greater.
fn past(number: u64, line: Line) -> Result<u64, NoMemory>
    ensures { IfOk result (λ next. next ≡ past_line number line) }
{
    match line {
        Line::Read { access, .. }
        | Line::Write { access, .. }
        | Line::Reload { access, .. }
        | Line::Spill { access, .. } => {
            if access < number {
                return Ok(number);
            }
            match access.checked_add(1) {
                Some(next) => Ok(next),
                None => Err(beyond_memory()),
            }
        }
        _ => Ok(number),
    }
}

fn past_all_lines(number: u64, lines: &[Line]) -> Result<u64, NoMemory>
    ensures { IfOk result (λ next. next ≡ past_lines number lines.now) }
{
    let mut next = number;
    for line in lines {
        next = past(next, *line)?;
    }
    Ok(next)
}

fn past_all_blocks(number: u64, blocks: &[Block]) -> Result<u64, NoMemory>
    ensures { IfOk result (λ next. next ≡ past_blocks number blocks.now) }
{
    let mut next = number;
    for block in blocks {
        next = past_all_lines(next, &block.lines)?;
    }
    Ok(next)
}

/// A number that is beyond those of all accesses.
pub(crate) fn past_all(functions: &[Function]) -> Result<u64, NoMemory>
    ensures { IfOk result (λ next. next ≡ past_functions 0 functions.now) }
{
    let mut next = 0;
    for function in functions {
        next = past_all_blocks(next, &function.blocks)?;
    }
    Ok(next)
}
