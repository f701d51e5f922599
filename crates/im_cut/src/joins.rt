ghost use Rattle.std.specs.Prelude.{◌≡◌, ◌⊎◌, IfOk, OnOk, IsTrue, MatchOption, Some, true};
ghost use Rattle.std.specs.Prelude.{◌&&◌, ◌||◌, Option, length};
ghost use Rattle.im_block.specs.Sections.{Has};
ghost use Rattle.im_block.specs.declared.access.Access.{Access};
ghost use Rattle.im_dep.specs.declared.spans.Span.{Span};
ghost use Rattle.im_dep.specs.Sites.{site_of_access};
ghost use Rattle.im_dep.specs.Spans.{is_covered, holds_span, span_holds};
ghost use Rattle.im_cut.specs.Stands.{HasAlike};
ghost use Rattle.im_cut.specs.Blocks.{Joins, JoinsAt, HandsOn, IsRange, AreCommon, SharesWith};
ghost use Rattle.im_cut.specs.Blocks.{AddsShared, AddsExposed, JoinsWritten};

use crate::marks::{Marks, alike, has_alike};
use im_block::{Access, Exit, Tags};
use im_dep::{Span, is_written};
use im_num::NoMemory;
use std::alloc::Global;

/// The marks at a block's end are joined with those at the starts of the blocks that it leads to.
/// Behind a loop edge a section begins.
pub(crate) fn hand_on(
    alloc: Global,
    table: &mut Vec<Marks>,
    exit: Exit,
    ends: &Marks,
    tags: &Tags,
) -> Result<(), NoMemory>
    ensures hands { OnOk result (HandsOn tags.now exit ends.now table.old.items table.new.items) }
    ensures len { OnOk result (length table.new.items ≡ length table.old.items) }
{
    match exit {
        Exit::Jump(to) => {
            join_at(alloc, table, to, ends, tags)?;
            Ok(())
        }
        Exit::Branch { holds, fails, .. } => {
            join_at(alloc, table, holds, ends, tags)?;
            if fails == holds {
                return Ok(());
            }
            join_at(alloc, table, fails, ends, tags)?;
            Ok(())
        }
        Exit::Turn(_) => Ok(()),
        Exit::Return(_) => Ok(()),
    }
}

fn join_at(
    alloc: Global,
    table: &mut Vec<Marks>,
    to: u32,
    from: &Marks,
    tags: &Tags,
) -> Result<(), NoMemory>
    ensures joins { OnOk result (JoinsAt tags.now to table.old.items from.now table.new.items) }
    ensures len { OnOk result (length table.new.items ≡ length table.old.items) }
{
    let to = to as usize;
    if to >= table.len() {
        return Ok(());
    }
    join(alloc, &mut table[to], from, tags)?;
    Ok(())
}

/// What is written on all paths and open on some, of those to one place and of those to another
/// that lead on to it.
fn join(alloc: Global, into: &mut Marks, from: &Marks, tags: &Tags) -> Result<(), NoMemory>
    ensures { OnOk result (Joins tags.now into.old from.now into.new) }
{
    join_written(alloc, into, from)?;
    add_exposed(&mut into.exposed, &from.exposed, tags)?;
    Ok(())
}

fn join_written(alloc: Global, into: &mut Marks, from: &Marks) -> Result<(), NoMemory>
    ensures { OnOk result (JoinsWritten into.old from.now into.new) }
{
    if !from.reached {
        return Ok(());
    }
    if into.reached {
        let written = common_spans(alloc, &into.written, &from.written)?;
        into.written = written;
        return Ok(());
    }
    let written = Vec::from_slice(alloc, &from.written)?;
    into.written = written;
    into.reached = true;
    Ok(())
}

/// The spans that both hold, as far as they are in order.
fn common_spans(alloc: Global, ours: &[Span], theirs: &[Span]) -> Result<Vec<Span>, NoMemory>
    ensures { IfOk result (λ common. AreCommon ours.now theirs.now common.items) }
{
    let mut common = Vec::new(alloc);
    for (index, span) in theirs.iter().enumerate() {
        if holds_at(ours, index, span) {
            common.push(*span)?;
        } else {
            add_shared(&mut common, ours, span)?;
        }
    }
    Ok(common)
}

/// Whether the span at an index holds this one.
fn holds_at(spans: &[Span], index: usize, span: &Span) -> bool
    ensures { IsTrue result → is_covered spans.now (Some span.now) ≡ true }
{
    if index >= spans.len() {
        return false;
    }
    spans[index].holds(span)
}

/// Adds what the spans share with this one.
fn add_shared(common: &mut Vec<Span>, ours: &[Span], span: &Span) -> Result<(), NoMemory>
    ensures { OnOk result (AddsShared ours.now span.now common.old.items common.new.items) }
{
    for other in ours {
        match shared(other, span) {
            Some(both) => {
                if !is_written(common, Some(both)) {
                    common.push(both)?;
                }
            }
            None => {}
        }
    }
    Ok(())
}

/// The bytes that two spans share.
fn shared(one: &Span, other: &Span) -> Option<Span>
    ensures { SharesWith one.now other.now result }
{
    let from = one.from.max(other.from);
    let to = one.to.min(other.to);
    if one.base == other.base && from <= to {
        Some(Span {
            base: one.base,
            from,
            to,
        })
    } else {
        None
    }
}

/// Adds the reads that have a place or a size which no read so far has.
fn add_exposed(into: &mut Vec<Access>, from: &[Access], tags: &Tags) -> Result<(), NoMemory>
    ensures { OnOk result (AddsExposed tags.now from.now into.old.items into.new.items) }
{
    for (index, read) in from.iter().enumerate() {
        if !alike_at(into, index, read, tags) && !has_alike(into, read, tags) {
            into.push(*read)?;
        }
    }
    Ok(())
}

/// Whether the read at an index has the place and size of this one.
fn alike_at(reads: &[Access], index: usize, read: &Access, tags: &Tags) -> bool
    ensures { IsTrue result → HasAlike tags.now reads.now (site_of_access read.now) }
{
    if index >= reads.len() {
        return false;
    }
    alike(tags, &reads[index], read)
}
