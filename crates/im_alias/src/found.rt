ghost use Rattle.std.specs.Prelude.{◌≡◌, ◌<◌, [], Some, IfOk, IsTrue, OnOk, length, slice_get};
ghost use Rattle.im_alias.specs.Scan.{FindsAt, FindsTag, IsAmong, IsSlotless, TagAlike};
ghost use Rattle.im_alias.specs.Sets.{row_sets};
ghost use Rattle.im_block.specs.Wellformed.{LineWithin, PlaceWithin};

use crate::set::ObjectSet;
use crate::table::RegisterSets;
use im_block::{Line, Place, Tag};
use im_num::{NoMemory, beyond_memory};
use std::alloc::Global;

/// An access, and where its tag stands among the tags.
#[derive(Clone, Copy)]
pub struct Tagged {
    pub access: u64,
    pub tag: u32,
}

/// The tags of a sweep.
#[derive(Drop)]
pub struct Found {
    pub tags: Vec<Tag>,
    pub accesses: Vec<Tagged>,
    /// By a hash of their objects, tags that stand already.
    recent: Vec<u32>,
}

const BUCKETS: usize = 4096;

impl Found {
    pub fn new(alloc: Global) -> Result<Found, NoMemory>
        ensures { IfOk result (λ found. found.accesses.items ≡ []) }
    {
        let recent = vec![in alloc; 0u32; BUCKETS]?;
        Ok(Found {
            tags: Vec::new(alloc),
            accesses: Vec::new(alloc),
            recent,
        })
    }

    /// The tags alone.
    pub fn into_tags(self) -> Vec<Tag>
        ensures { result ≡ self.tags }
    {
        let Found { tags, .. } = self;
        tags
    }

    /// Gives an access its tag.
    pub fn tag(&mut self, alloc: Global, spot: &RegisterSets, line: Line) -> Result<(), NoMemory>
        requires within { LineWithin (length spot.now.sets.items) line }
        requires slotless { IsSlotless line }
        ensures { OnOk result (FindsAt (row_sets spot.now) line self.old self.new) }
    {
        match line {
            Line::Read { place, access, .. } | Line::Write { place, access, .. } => {
                let tag = self.tag_at(alloc, spot, place)?;
                self.accesses.push(Tagged { access, tag })?;
                Ok(())
            }
            _ => Ok(()),
        }
    }

    /// Where the tag of an access to a place stands.
    fn tag_at(&mut self, alloc: Global, spot: &RegisterSets, place: Place) -> Result<u32, NoMemory>
        requires { PlaceWithin (length spot.now.sets.items) place }
        ensures { IfOk result (λ k. FindsTag k (TagAlike (row_sets spot.now) place) self.old self.new) }
    {
        match place {
            Place::Static { object, offset } | Place::Local { object, offset } => {
                self.put(Tag::Direct { object, offset })
            }
            Place::Through { pointer, .. } => self.among(alloc, &spot.sets[pointer as usize]),
        }
    }

    /// Where a tag of just these objects stands; one that stands already, where it is known.
    fn among(&mut self, alloc: Global, objects: &ObjectSet) -> Result<u32, NoMemory>
        ensures { IfOk result (λ k. FindsTag k (IsAmong objects.now.members.items) self.old self.new) }
    {
        let bucket = bucket_of(&objects.members);
        let place = self.recalled(bucket);
        if self.is_among(place, objects) {
            return Ok(place);
        }
        let members = Vec::from_slice(alloc, &objects.members)?;
        let place = self.put(Tag::Through(members))?;
        self.remember(bucket, place);
        Ok(place)
    }

    fn recalled(&self, bucket: usize) -> u32 {
        if bucket < self.recent.len() {
            self.recent[bucket]
        } else {
            0
        }
    }

    fn remember(&mut self, bucket: usize, place: u32)
        ensures tags { self.new.tags ≡ self.old.tags }
        ensures accesses { self.new.accesses ≡ self.old.accesses }
    {
        if bucket < self.recent.len() {
            self.recent[bucket] = place;
        }
    }

    fn is_among(&self, place: u32, objects: &ObjectSet) -> bool
        ensures { IsTrue result → IsAmong objects.now.members.items (slice_get self.now.tags.items place) }
    {
        match self.tags.get(place as usize) {
            Some(Tag::Through(members)) => members.as_slice() == objects.members.as_slice(),
            _ => false,
        }
    }

    fn put(&mut self, tag: Tag) -> Result<u32, NoMemory>
        ensures { IfOk result (λ k. FindsTag k (λ found. found ≡ Some tag) self.old self.new) }
    {
        let Ok(place) = u32::try_from(self.tags.len()) else {
            return Err(beyond_memory());
        };
        self.tags.push(tag)?;
        Ok(place)
    }
}

/// A hash of objects, below the number of buckets.
fn bucket_of(objects: &[u32]) -> usize
    ensures { result < 4096 }
{
    let mut hash = 0u32;
    for object in objects {
        hash = hash.wrapping_mul(31).wrapping_add(*object);
    }
    hash as usize % BUCKETS
}
