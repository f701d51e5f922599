ghost use Rattle.std.specs.Prelude.{◌≡◌, ◌≤◌, ◌+◌, ◌++◌, None, length, OnOk, All};
ghost use Rattle.im_rv.specs.Lines.{code_lines};
ghost use Rattle.im_alloc_placed.specs.Placed.{IsPlacedLine};
ghost use Rattle.im_select.specs.Emitted.{line_code, lines_code, behind_at};
ghost use Rattle.im_live.specs.Words.{entry_at};
ghost use Rattle.im_select.specs.Given.{given};
ghost use Rattle.im_select.specs.Places.{at_of, HasPlaces, CallsBelow};

use crate::computing::{
    push_compared, push_computed, push_converted, push_copy, push_distance, push_moved, push_not,
    push_unary,
};
use crate::folding::{passed_by, push_way};
use crate::memory::{push_address, push_read, push_reload, push_spill, push_write};
use crate::names::Names;
use crate::push::{push_cut, push_jump};
use crate::words::{push_constant, register, to_word};
use im_block::Line as Placed;
use im_live::entry_for;
use im_num::NoMemory;
use im_rtlib::{FIRST_FREE, service_label};
use im_rv::Line;

/// The lines of one line of placed code. A cut has the entry.
pub(crate) fn push_line(
    lines: &mut Vec<Line>,
    names: &Names,
    entry: u32,
    line: Placed,
) -> Result<(), NoMemory>
    requires places { HasPlaces (given names.now) }
    requires placed { IsPlacedLine (length names.now.statics.now) names.now.function.now line }
    requires called { CallsBelow names.now.functions line }
    ensures { OnOk result (code_lines lines.new.items
        ≡ code_lines lines.old.items ++ line_code (at_of (given names.now)) entry line) }
{
    match line {
        Placed::Put { to, number } => push_constant(lines, register(to), to_word(number)),
        Placed::PutNull { to } => push_copy(lines, to, 0),
        Placed::Copy { to, from } => push_copy(lines, to, from),
        Placed::Convert { to, kind, from } => push_converted(lines, to, kind, from),
        Placed::Unary { to, op, from, .. } => push_unary(lines, to, op, from),
        Placed::Not { to, from } => push_not(lines, to, from),
        Placed::Compute {
            to,
            op,
            kind,
            left,
            right,
        } => { push_computed(lines, to, op, kind, left, right) }
        Placed::Compare {
            to,
            op,
            kind,
            left,
            right,
        } => { push_compared(lines, to, op, kind, left, right) }
        Placed::Move {
            to,
            size,
            back,
            pointer,
            by,
        } => { push_moved(lines, to, size, back, pointer, by) }
        Placed::Distance {
            to,
            size,
            left,
            right,
        } => push_distance(lines, to, size, left, right),
        Placed::Address { to, place } => push_address(lines, names, to, place),
        Placed::Read {
            to,
            place,
            kind,
            access,
        } => { push_read(lines, names, to, place, kind, access) }
        Placed::Write {
            place,
            kind,
            from,
            access,
        } => { push_write(lines, names, place, kind, from, access) }
        Placed::Reload { to, slot, access } => push_reload(lines, names, to, slot, access),
        Placed::Spill { slot, from, access } => push_spill(lines, names, slot, from, access),
        Placed::Cut(cause) => push_cut(lines, cause, entry),
        Placed::Call { function, .. } => push_jump(lines, 1, FIRST_FREE + function),
        Placed::Serve { service, .. } => push_jump(lines, 1, service_label(service)),
    }
}

/// The lines of several, in order. A word of `points` has the registers that live before a line,
/// the one behind it those that live behind the line; there may be more of them.
pub(crate) fn push_lines(
    lines: &mut Vec<Line>,
    names: &Names,
    points: &[u32],
    placed: &[Placed],
) -> Result<(), NoMemory>
    requires enough { length placed.now + 1 ≤ length points.now }
    requires places { HasPlaces (given names.now) }
    requires placed { All
        (IsPlacedLine (length names.now.statics.now) names.now.function.now) placed.now }
    requires called { All (CallsBelow names.now.functions) placed.now }
    ensures { OnOk result (code_lines lines.new.items
        ≡ code_lines lines.old.items ++ lines_code (at_of (given names.now)) (entry_at points.now)
        (behind_at points.now) None 0 placed.now) }
{
    let mut before = None;
    for (number, line) in placed.iter().enumerate() {
        let entry = entry_for(points[number + 1]);
        let passed = passed_by(points, placed, number);
        push_way(lines, names, entry, passed, before, *line)?;
        before = passed;
    }
    Ok(())
}
