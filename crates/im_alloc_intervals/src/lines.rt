ghost use Rattle.std.specs.Prelude.{◌≡◌, ◌<◌, ◌+◌, ◌^◌, All, length};
ghost use Rattle.im_alloc_intervals.specs.Marks.{Adds, Flags};
ghost use Rattle.im_alloc_intervals.specs.Lines.{IsTarget, IsBehind, IsSetAt, IsAcross, IsPassed};
ghost use Rattle.im_alloc_intervals.specs.Lines.{IsArgument};
ghost use Rattle.im_alloc_intervals.specs.Lines.{target_of as target_of_line};
ghost use Rattle.im_alloc_intervals.specs.Lines.{result_of as result_of_line};
ghost use Rattle.im_block.specs.Wellformed.{LineWithin};

use crate::marks::{Interval, flag_run, flag_word, touch};
use im_block::Line;

/// The register that a line sets.
fn target_of(line: Line) -> Option<u32>
    ensures { result ≡ target_of_line line }
{
    match line {
        Line::Put { to, .. }
        | Line::PutNull { to }
        | Line::Copy { to, .. }
        | Line::Convert { to, .. }
        | Line::Unary { to, .. }
        | Line::Not { to, .. }
        | Line::Compute { to, .. }
        | Line::Compare { to, .. }
        | Line::Move { to, .. }
        | Line::Distance { to, .. }
        | Line::Address { to, .. }
        | Line::Read { to, .. }
        | Line::Reload { to, .. }
        | Line::Call { to, .. }
        | Line::Serve { to, .. } => Some(to),
        Line::Write { .. } | Line::Spill { .. } | Line::Cut(_) => None,
    }
}

/// The register that takes a call's result.
fn result_of(line: Line) -> Option<u32>
    ensures { result ≡ result_of_line line }
{
    match line {
        Line::Call { to, .. } | Line::Serve { to, .. } => Some(to),
        _ => None,
    }
}

fn touch_target(table: &mut [Option<Interval>], line: Line, position: u64)
    requires { LineWithin (length table.old) line }
    ensures { Adds (IsTarget line position) table.old table.new }
{
    if let Some(to) = target_of(line) {
        touch(table, to as usize, position);
    }
}

/// What lines set is marked at positions side by side.
pub(crate) fn touch_targets(table: &mut [Option<Interval>], lines: &[Line], start: u64)
    requires within { All (LineWithin (length table.old)) lines.now }
    requires room { start + length lines.now < 2 ^ 64 }
    ensures { Adds (IsSetAt lines.now start) table.old table.new }
{
    for (i, line) in lines.iter().enumerate() {
        touch_target(table, *line, start + i as u64);
    }
}

/// Sets the flags of what a word has behind a line that is a call, but for its result.
fn flag_behind(flags: &mut [bool], base: u64, word: u32, line: Line)
    requires { base + 32 < 2 ^ 64 }
    ensures { Flags (IsBehind base word (result_of_line line)) flags.old flags.new }
{
    let result = result_of(line);
    if result.is_some() {
        flag_word(flags, base, word, result);
    }
}

/// Sets the flags of what lives behind calls, but for their results: `words` has the registers that
/// live before each line and before the exit.
pub(crate) fn flag_across(flags: &mut [bool], base: u64, words: &[u32], lines: &[Line])
    requires small { base + 32 < 2 ^ 64 }
    requires count { length words.now ≡ length lines.now + 1 }
    ensures { Flags (IsAcross base words.now lines.now) flags.old flags.new }
{
    for (i, line) in lines.iter().enumerate() {
        flag_behind(flags, base, words[i + 1], *line);
    }
}

fn flag_arguments_of(flags: &mut [bool], line: Line)
    requires within { LineWithin (length flags.old) line }
    requires small { length flags.old < 2 ^ 32 }
    ensures { Flags (IsArgument line) flags.old flags.new }
{
    if let Line::Call { first, count, .. } = line {
        flag_run(flags, first, count);
    }
}

/// Sets the flags of calls' arguments.
pub(crate) fn flag_arguments(flags: &mut [bool], lines: &[Line])
    requires within { All (LineWithin (length flags.old)) lines.now }
    requires small { length flags.old < 2 ^ 32 }
    ensures { Flags (IsPassed lines.now) flags.old flags.new }
{
    for line in lines {
        flag_arguments_of(flags, *line);
    }
}
