ghost use Rattle.std.specs.Prelude.{◌≡◌, IfOk, OnOk, Some, None};
ghost use Rattle.im_num.specs.Kinds.{kind_size};
ghost use Rattle.im_cut.specs.Lines.{access_of, is_cut, PassesLine, IsDueAt, IsDueFor};
ghost use Rattle.im_cut.specs.Lines.{SweepsLine, SweepsLines};

use crate::marks::{Marks, first_met, restart, touch};
use im_block::{Access, Dep, Line, Tags};
use im_num::{Cause, Kind, NoMemory};
use std::alloc::Global;

/// The lines of a block with the cuts that are due, whose dependences are added; the marks go from
/// their start to their end.
pub(crate) fn sweep_lines(
    alloc: Global,
    lines: &[Line],
    marks: &mut Marks,
    tags: &Tags,
    deps: &mut Vec<Dep>,
) -> Result<Vec<Line>, NoMemory>
    ensures { IfOk result (λ cut. SweepsLines tags.now marks.old marks.new lines.now cut.items
        deps.old.items deps.new.items) }
{
    let mut cut = Vec::new(alloc);
    for line in lines {
        sweep_line(&mut cut, line, marks, tags, deps)?;
    }
    Ok(cut)
}

/// One line, behind its cut if one is due.
fn sweep_line(
    cut: &mut Vec<Line>,
    line: &Line,
    marks: &mut Marks,
    tags: &Tags,
    deps: &mut Vec<Dep>,
) -> Result<(), NoMemory>
    ensures { OnOk result (SweepsLine tags.now marks.old marks.new line.now cut.old.items
        cut.new.items deps.old.items deps.new.items) }
{
    match due(&marks.exposed, line, tags) {
        Some(dep) => {
            cut.push(Line::Cut(Cause::Dep {
                read: dep.read,
                write: dep.write,
            }))?;
            deps.push(dep)?;
            restart(marks, tags);
            cut.push(*line)?;
            pass(marks, line, tags)?;
            Ok(())
        }
        None => {
            cut.push(*line)?;
            pass(marks, line, tags)?;
            Ok(())
        }
    }
}

/// The dependence for which a cut is due before a line.
fn due(exposed: &[Access], line: &Line, tags: &Tags) -> Option<Dep>
    ensures { IsDueAt tags.now exposed.now line.now result }
{
    match access_at(line) {
        Some(access) => due_for(exposed, &access, tags),
        None => None,
    }
}

/// The dependence of an access and a read that it clobbers.
fn due_for(exposed: &[Access], access: &Access, tags: &Tags) -> Option<Dep>
    ensures { IsDueFor tags.now exposed.now access.now result }
{
    if !access.write {
        return None;
    }
    match first_met(exposed, access, tags) {
        Some(read) => Some(Dep {
            read: read.number,
            write: access.number,
        }),
        None => None,
    }
}

/// The marks behind a line.
fn pass(marks: &mut Marks, line: &Line, tags: &Tags) -> Result<(), NoMemory>
    ensures { OnOk result (PassesLine tags.now line.now marks.old marks.new) }
{
    if is_checkpoint(line) {
        restart(marks, tags);
        return Ok(());
    }
    match access_at(line) {
        Some(access) => {
            touch(marks, &access, tags)?;
            Ok(())
        }
        None => Ok(()),
    }
}

fn is_checkpoint(line: &Line) -> bool
    ensures { result ≡ is_cut line.now }
{
    matches!(line, Line::Cut(_))
}

/// The access that a line makes. A register's value in a slot has four bytes.
fn access_at(line: &Line) -> Option<Access>
    ensures { result ≡ access_of line.now }
{
    match *line {
        Line::Read { kind, access, .. } => Some(plain(access, false, kind)),
        Line::Write { kind, access, .. } => Some(plain(access, true, kind)),
        Line::Reload { slot, access, .. } => Some(kept(access, false, slot)),
        Line::Spill { slot, access, .. } => Some(kept(access, true, slot)),
        _ => None,
    }
}

fn plain(number: u64, write: bool, kind: Kind) -> Access
    ensures { result
        ≡ record { number = number; write = write; size = kind_size kind; slot = None } }
{
    Access {
        number,
        write,
        size: bytes_of(kind),
        slot: None,
    }
}

fn kept(number: u64, write: bool, slot: u32) -> Access
    ensures { result ≡ record { number = number; write = write; size = 4; slot = Some slot } }
{
    Access {
        number,
        write,
        size: 4,
        slot: Some(slot),
    }
}

fn bytes_of(kind: Kind) -> u32
    ensures { result ≡ kind_size kind }
{
    match kind {
        Kind::I8 | Kind::U8 => 1,
        Kind::I16 | Kind::U16 => 2,
        Kind::I32 | Kind::U32 | Kind::Ptr => 4,
    }
}
