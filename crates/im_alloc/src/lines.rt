ghost use Rattle.std.specs.Prelude.{◌≡◌, ◌<◌, ◌+◌, ◌*◌, ◌^◌, All, IfOk, OnOk, length};
ghost use Rattle.im_alloc_relation.specs.Homes.{put_line};
ghost use Rattle.im_alloc_intervals.specs.Homes.{home_at};
ghost use Rattle.im_alloc.specs.Parts.{Adds, AddsLines, Fits, load_some, save_some, plain_line};
ghost use Rattle.im_alloc.specs.Parts.{calls, keeps_loop_cut, puts_line};

use crate::homes::home_at;
use crate::numbers::behind;
use crate::operands::{first_of, in_registers, second_of, target_of};
use crate::pieces::{push, push_arguments, push_call, push_into, push_load, push_save};
use im_alloc_intervals::Home;
use im_block::{Exit, Line};
use im_num::NoMemory;

fn push_operand(
    lines: &mut Vec<Line>,
    homes: &[Home],
    operand: Option<u32>,
    scratch: u32,
    access: u64,
) -> Result<(), NoMemory>
    ensures { OnOk result
        (Adds
        (load_some (home_at homes.now) operand scratch access)
        lines.old.items
        lines.new.items) }
{
    match operand {
        None => Ok(()),
        Some(register) => push_load(lines, home_at(homes, register as usize), scratch, access),
    }
}

fn push_result(
    lines: &mut Vec<Line>,
    homes: &[Home],
    to: Option<u32>,
    access: u64,
) -> Result<(), NoMemory>
    ensures { OnOk result
        (Adds (save_some (home_at homes.now) to access) lines.old.items lines.new.items) }
{
    match to {
        None => Ok(()),
        Some(register) => push_save(lines, home_at(homes, register as usize), access),
    }
}

/// A line that is no call: its operands come, it works on registers, its result goes home.
fn push_plain(
    lines: &mut Vec<Line>,
    homes: &[Home],
    number: u64,
    line: Line,
) -> Result<(), NoMemory>
    requires { number + 16 < 2 ^ 64 }
    ensures { OnOk result
        (Adds (plain_line (home_at homes.now) number line) lines.old.items lines.new.items) }
{
    push_operand(lines, homes, first_of(line), 7, number)?;
    push_operand(lines, homes, second_of(line), 8, number + 1)?;
    push(lines, in_registers(homes, line))?;
    push_result(lines, homes, target_of(line), number + 2)
}

/// What a line becomes. It takes its numbers from those that `number` begins.
pub(crate) fn push_line(
    lines: &mut Vec<Line>,
    homes: &[Home],
    number: u64,
    line: Line,
) -> Result<(), NoMemory>
    requires fits { Fits line }
    requires room { number + 16 < 2 ^ 64 }
    ensures { OnOk result
        (Adds (put_line (home_at homes.now) number line) lines.old.items lines.new.items) }
{
    match line {
        Line::Call {
            to,
            function,
            first,
            count,
        } => {
            push_arguments(lines, homes, first, count, number + 3)?;
            let call = Line::Call {
                to: 10,
                function,
                first: 10,
                count,
            };
            push_call(lines, call, home_at(homes, to as usize), number + 2)
        }
        Line::Serve {
            to,
            service,
            from: None,
        } => {
            let call = Line::Serve {
                to: 10,
                service,
                from: None,
            };
            push_call(lines, call, home_at(homes, to as usize), number + 2)
        }
        Line::Serve {
            to,
            service,
            from: Some(from),
        } => {
            push_into(lines, home_at(homes, from as usize), 10, number)?;
            let call = Line::Serve {
                to: 10,
                service,
                from: Some(10),
            };
            push_call(lines, call, home_at(homes, to as usize), number + 2)
        }
        Line::Reload { .. } | Line::Spill { .. } => Ok(()),
        _ => push_plain(lines, homes, number, line),
    }
}

/// What the lines of a block become, and the number behind all of theirs. A cut directly behind a
/// call came with the call.
pub(crate) fn push_lines(
    lines: &mut Vec<Line>,
    homes: &[Home],
    number: u64,
    old: &[Line],
    exit: Exit,
) -> Result<u64, NoMemory>
    requires { All Fits old.now }
    ensures { IfOk result (λ next.
        AddsLines (home_at homes.now) number exit old.now next lines.old.items lines.new.items) }
{
    let mut next = number;
    let mut behind_call = false;
    for (index, line) in old.iter().enumerate() {
        if is_put(exit, behind_call, *line, &old[index + 1..]) {
            let end = behind(next)?;
            push_line(lines, homes, next, *line)?;
            next = end;
        }
        behind_call = is_call(*line);
    }
    Ok(next)
}

/// Whether a line is put, before the rest of its block.
fn is_put(exit: Exit, behind_call: bool, line: Line, rest: &[Line]) -> bool
    ensures { result ≡ puts_line exit behind_call line rest.now }
{
    match line {
        Line::Cut(_) => !behind_call || is_loop_cut(exit, rest),
        _ => true,
    }
}

/// Whether a cut before so much of its block is that of a loop edge.
fn is_loop_cut(exit: Exit, rest: &[Line]) -> bool
    ensures { result ≡ keeps_loop_cut exit rest.now }
{
    match exit {
        Exit::Turn(_) => rest.is_empty(),
        _ => false,
    }
}

fn is_call(line: Line) -> bool
    ensures { result ≡ calls line }
{
    matches!(line, Line::Call { .. } | Line::Serve { .. })
}
