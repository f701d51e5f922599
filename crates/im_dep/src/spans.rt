ghost use Rattle.std.specs.Prelude.{◌≡◌, ◌↔◌, IsTrue, option_copied};
ghost use Rattle.im_block.specs.Tagged.{tag_of};
ghost use Rattle.im_block.specs.Paths.{CoversAt};
ghost use Rattle.im_dep.specs.Sites.{site_of_access};
ghost use Rattle.im_dep.specs.Spans.{span_of, span_holds, holds_span, covers_by};

use im_block::{Access, Tag, Tags};

/// What a direct access is in.
#[derive(Clone, Copy, PartialEq, Eq, Debug)]
pub enum Base {
    /// A slot of the frame, by its number.
    Slot(u32),
    /// An object, by its number in the unit.
    Object(u32),
}

/// The bytes of a direct access: from an offset on, up to another one.
#[derive(Clone, Copy, PartialEq, Eq, Debug)]
pub struct Span {
    pub base: Base,
    pub from: u64,
    pub to: u64,
}

impl Span {
    /// Whether all bytes of the other span are in this one.
    pub fn holds(&self, other: &Span) -> bool
        ensures { result ≡ span_holds self.now other.now }
    {
        self.base == other.base && self.from <= other.from && other.to <= self.to
    }
}

/// The tag of an access, by its number.
pub(crate) fn tag_at(tags: &Tags, number: u64) -> Option<&Tag>
    ensures { option_copied result ≡ tag_of tags.now number }
{
    match tags.of.get(number as usize) {
        Some(place) => tags.tags.get(*place as usize),
        None => None,
    }
}

/// The bytes of an access, where its tag is direct or it is to a slot.
pub fn direct_span(tags: &Tags, access: &Access) -> Option<Span>
    ensures { result ≡ span_of tags.now (site_of_access access.now) }
{
    if let Some(slot) = access.slot {
        return Some(Span {
            base: Base::Slot(slot),
            from: 0,
            to: u64::from(access.size),
        });
    }
    match tag_at(tags, access.number) {
        Some(Tag::Direct { object, offset }) => Some(Span {
            base: Base::Object(*object),
            from: u64::from(*offset),
            to: u64::from(*offset) + u64::from(access.size),
        }),
        _ => None,
    }
}

/// Whether a write is sure to write all bytes of a read: both are direct.
pub fn covers(tags: &Tags, write: &Access, read: &Access) -> bool
    ensures value { result ≡ covers_by tags.now (site_of_access write.now) (site_of_access read.now) }
    ensures exact { IsTrue result ↔ CoversAt tags.now (site_of_access write.now) (site_of_access read.now) }
{
    covers_span(direct_span(tags, write), direct_span(tags, read))
}

/// Whether there are two spans, and the first holds the second.
pub(crate) fn covers_span(write: Option<Span>, read: Option<Span>) -> bool
    ensures { result ≡ holds_span write read }
{
    match (write, read) {
        (Some(write), Some(read)) => write.holds(&read),
        _ => false,
    }
}
