ghost use Rattle.std.specs.Prelude.{◌≡◌, IfOk, OnOk};
ghost use Rattle.im_dep.specs.Spans.{is_covered, AddsSpan};
ghost use Rattle.im_dep.specs.Exposed.{AreExposed, AreClobbers, AddsMet};

use crate::pairs::meets;
use crate::spans::{Span, covers_span, direct_span};
use im_block::{Access, Dep, Tags};
use im_num::NoMemory;
use std::alloc::Global;

/// The numbers of the exposed reads: those that no earlier write covers.
pub fn exposed(alloc: Global, accesses: &[Access], tags: &Tags) -> Result<Vec<u64>, NoMemory>
    ensures { IfOk result (λ found. AreExposed tags.now accesses.now found.items) }
{
    let mut found = Vec::new(alloc);
    let mut written = Vec::new(alloc);
    for access in accesses {
        let place = direct_span(tags, access);
        if access.write {
            write_span(&mut written, place)?;
        } else if !is_written(&written, place) {
            found.push(access.number)?;
        }
    }
    Ok(found)
}

/// Whether one of the spans holds this one.
pub fn is_written(written: &[Span], place: Option<Span>) -> bool
    ensures { result ≡ is_covered written.now place }
{
    for span in written {
        if covers_span(Some(*span), place) {
            return true;
        }
    }
    false
}

/// Adds the bytes of a write to those that are written, if it is a direct one.
pub fn write_span(written: &mut Vec<Span>, place: Option<Span>) -> Result<(), NoMemory>
    ensures { OnOk result (AddsSpan place written.old.items written.new.items) }
{
    match place {
        Some(span) => {
            written.push(span)?;
            Ok(())
        }
        None => Ok(()),
    }
}

/// The pairs of an exposed read and a later write that may meet its bytes, by their numbers.
pub fn clobbers(alloc: Global, accesses: &[Access], tags: &Tags) -> Result<Vec<Dep>, NoMemory>
    ensures { IfOk result (λ found. AreClobbers tags.now accesses.now found.items) }
{
    let mut found = Vec::new(alloc);
    let mut written = Vec::new(alloc);
    let mut reads = Vec::new(alloc);
    for access in accesses {
        let place = direct_span(tags, access);
        if access.write {
            push_met(&mut found, &reads, access, tags)?;
            write_span(&mut written, place)?;
        } else if !is_written(&written, place) {
            reads.push(*access)?;
        }
    }
    Ok(found)
}

/// Adds a pair for each open read that the write may meet.
fn push_met(
    found: &mut Vec<Dep>,
    reads: &[Access],
    write: &Access,
    tags: &Tags,
) -> Result<(), NoMemory>
    ensures { OnOk result (AddsMet tags.now reads.now write.now found.old.items found.new.items) }
{
    for read in reads {
        if meets(tags, write, read) {
            found.push(Dep {
                read: read.number,
                write: write.number,
            })?;
        }
    }
    Ok(())
}
