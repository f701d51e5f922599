ghost use Rattle.std.specs.Prelude.{◌≡◌, ◌<◌, ◌+◌, ◌↔◌, ℕ, IsTrue};
ghost use Rattle.im_block.specs.Sections.{Has};
ghost use Rattle.im_block.specs.Tagged.{Meet, reach_of_tag};
ghost use Rattle.im_block.specs.Paths.{MeetAt};
ghost use Rattle.im_dep.specs.Sites.{site_of_access};

use crate::spans::tag_at;
use im_block::{Access, Tag, Tags};

/// Whether a write may meet the bytes of a read. An access without a tag may go anywhere.
pub fn meets(tags: &Tags, write: &Access, read: &Access) -> bool
    ensures { IsTrue result ↔ MeetAt tags.now (site_of_access write.now) (site_of_access read.now) }
{
    match (write.slot, read.slot) {
        (Some(slot), Some(other)) => slot == other,
        (Some(_), None) => tag_at(tags, read.number).is_none(),
        (None, Some(_)) => tag_at(tags, write.number).is_none(),
        (None, None) => match (tag_at(tags, write.number), tag_at(tags, read.number)) {
            (Some(tag), Some(other)) => tags_meet(tag, write.size, other, read.size),
            _ => true,
        },
    }
}

fn tags_meet(write: &Tag, size: u32, read: &Tag, read_size: u32) -> bool
    ensures { IsTrue result ↔ Meet (reach_of_tag (Some write.now)) size (reach_of_tag (Some read.now)) read_size }
{
    match (write, read) {
        (
            Tag::Direct { object, offset },
            Tag::Direct {
                object: other,
                offset: at,
            },
        ) => {
            object == other
                && u64::from(*offset) < u64::from(*at) + u64::from(read_size)
                && u64::from(*at) < u64::from(*offset) + u64::from(size)
        }
        (Tag::Direct { object, .. }, Tag::Through(objects)) => is_among(objects, *object),
        (Tag::Through(objects), Tag::Direct { object, .. }) => is_among(objects, *object),
        (Tag::Through(objects), Tag::Through(others)) => share_one(objects, others),
    }
}

fn is_among(objects: &[u32], object: u32) -> bool
    ensures { IsTrue result ↔ Has objects.now object }
{
    for other in objects {
        if *other == object {
            return true;
        }
    }
    false
}

fn share_one(objects: &[u32], others: &[u32]) -> bool
    ensures { IsTrue result ↔ ((o : ℕ) × Has objects.now o × Has others.now o) }
{
    for object in objects {
        if is_among(others, *object) {
            return true;
        }
    }
    false
}
