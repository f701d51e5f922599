ghost use Rattle.std.specs.Prelude.{◌≡◌, IsTrue, OnOk, true, false, MatchOption, []};
ghost use Rattle.im_block.specs.Tagged.{tag_of};
ghost use Rattle.im_dep.specs.Sites.{site_of_access};
ghost use Rattle.im_cut.specs.Sweep.{fresh};
ghost use Rattle.im_cut.specs.Stands.{IsAlike, IsMet, NoneIsMet, Stands, HasAlike};
ghost use Rattle.im_cut.specs.Stands.{Touches, Writes, Reads};

use im_block::{Access, Tags};
use im_dep::{Span, direct_span, is_written, meets, write_span};
use im_num::NoMemory;
use std::alloc::Global;

/// What a sweep knows at a place of a function, of the paths that come there from where their
/// sections begin.
#[derive(Drop)]
pub(crate) struct Marks {
    /// Whether there is such a path.
    pub reached: bool,
    /// The bytes that each of them has written.
    pub written: Vec<Span>,
    /// Reads that are open on one of them: of each place and size at least one.
    pub exposed: Vec<Access>,
}

/// The marks of a place that no path comes to.
pub(crate) fn nothing(alloc: Global) -> Marks
    ensures reached { result.reached ≡ false }
    ensures written { result.written.items ≡ [] }
    ensures exposed { result.exposed.items ≡ [] }
{
    Marks {
        reached: false,
        written: Vec::new(alloc),
        exposed: Vec::new(alloc),
    }
}

/// A section begins here.
pub(crate) fn restart(marks: &mut Marks, tags: &Tags)
    ensures { Stands tags.now marks.new fresh }
{
    marks.reached = true;
    marks.written.clear();
    marks.exposed.clear();
}

/// A read or a write that is passed.
pub(crate) fn touch(marks: &mut Marks, access: &Access, tags: &Tags) -> Result<(), NoMemory>
    ensures { OnOk result (Touches tags.now access.now marks.old marks.new) }
{
    if access.write {
        write(marks, access, tags)?;
        return Ok(());
    }
    read(marks, access, tags)?;
    Ok(())
}

/// A direct write adds its bytes.
fn write(marks: &mut Marks, access: &Access, tags: &Tags) -> Result<(), NoMemory>
    ensures { OnOk result (Writes tags.now access.now marks.old marks.new) }
{
    write_span(&mut marks.written, direct_span(tags, access))?;
    Ok(())
}

/// A read is open unless its bytes were written. Of reads that have one place and size, one serves.
fn read(marks: &mut Marks, access: &Access, tags: &Tags) -> Result<(), NoMemory>
    ensures { OnOk result (Reads tags.now access.now marks.old marks.new) }
{
    if !marks.reached {
        return Ok(());
    }
    if is_written(&marks.written, direct_span(tags, access)) {
        return Ok(());
    }
    if has_recent_alike(&marks.exposed, access, tags) {
        return Ok(());
    }
    marks.exposed.push(*access)?;
    Ok(())
}

/// How many of the last reads are looked at for one of the same place and size. A read that is
/// there twice does no harm, and in a long section a longer look would cost more than it spares.
const RECENT: usize = 64;

/// Whether one of the last reads has the place and size of this one.
fn has_recent_alike(reads: &[Access], read: &Access, tags: &Tags) -> bool
    ensures { IsTrue result → HasAlike tags.now reads.now (site_of_access read.now) }
{
    let first = reads.len().saturating_sub(RECENT);
    has_alike(&reads[first..], read, tags)
}

/// Whether one of the reads has the place and size of this one.
pub(crate) fn has_alike(reads: &[Access], read: &Access, tags: &Tags) -> bool
    ensures { IsTrue result → HasAlike tags.now reads.now (site_of_access read.now) }
{
    for other in reads {
        if alike(tags, other, read) {
            return true;
        }
    }
    false
}

/// Whether two accesses are seen to have the same place and size.
pub(crate) fn alike(tags: &Tags, one: &Access, other: &Access) -> bool
    ensures { IsTrue result → IsAlike tags.now (site_of_access one.now) (site_of_access other.now) }
{
    match (direct_span(tags, one), direct_span(tags, other)) {
        (Some(span), Some(also)) => span.holds(&also) && also.holds(&span),
        (None, None) => one.size == other.size && share_tag(tags, one.number, other.number),
        _ => false,
    }
}

/// Whether two accesses have one tag.
fn share_tag(tags: &Tags, one: u64, other: u64) -> bool
    ensures { IsTrue result → tag_of tags.now one ≡ tag_of tags.now other }
{
    match (tags.of.get(one as usize), tags.of.get(other as usize)) {
        (Some(place), Some(also)) => *place == *also,
        (None, None) => true,
        _ => false,
    }
}

/// A read among these that the write may meet.
pub(crate) fn first_met(reads: &[Access], write: &Access, tags: &Tags) -> Option<Access>
    ensures { MatchOption result (NoneIsMet tags.now reads.now write.now)
        (λ read. IsMet tags.now reads.now write.now read) }
{
    for read in reads {
        if meets(tags, write, read) {
            return Some(*read);
        }
    }
    None
}
