//! Lists of tags.
ghost use Rattle.std.specs.Prelude.{◌≡◌, ◌++◌, ◌∷◌, [], length, OnOk, OnErr, Some, None};
ghost use Rattle.std.specs.Option.{option_map};
ghost use Rattle.im_rules.specs.Outline as o;

use crate::map::NameMap;
use im_num::NoMemory;
use std::alloc::Global;

/// The tags of member lists in order, where they have one; each is found by its bytes. Contracts
/// see the list.
#[derive(Drop)]
pub struct TagList {
    tags: Vec<Option<Vec<u8>>>,
    places: NameMap,
}

impl std::marker::Model for TagList {
    ghost use Rattle.std.specs.Prelude.{ℕ, List, Option};

    ghost Value = { List (Option (List ℕ)) };

    ghost use Rattle.im_check_name_map.specs.Lists.{tags_of, HasPlaces};

    ghost view = { λ l. tags_of l.tags.items };

    ghost invariant = { λ l. HasPlaces (tags_of l.tags.items) l.places };
}

impl TagList {
    pub fn new(alloc: Global) -> TagList
        ensures { result ≡ [] }
    {
        TagList {
            tags: Vec::new(alloc),
            places: NameMap::new(alloc),
        }
    }

    pub fn len(&self) -> usize
        ensures { result ≡ length self.now }
    {
        self.tags.len()
    }

    /// The number of the first member list of that tag, if there is one.
    pub fn number(&self, tag: &[u8]) -> Option<usize>
        ensures { result ≡ o.list_number tag.now self.now }
    {
        self.places.number(tag)
    }

    /// Puts a member list without a tag behind the others.
    pub fn push_untagged(&mut self) -> Result<(), NoMemory>
        ensures pushed { OnOk result (self.new ≡ self.old ++ None ∷ []) }
        ensures unchanged { OnErr result (self.new ≡ self.old) }
    {
        self.tags.push(None)?;
        Ok(())
    }

    /// Puts the member list of a tag behind the others.
    pub fn push(&mut self, alloc: Global, tag: &[u8]) -> Result<(), NoMemory>
        ensures pushed { OnOk result (self.new ≡ self.old ++ Some tag.now ∷ []) }
        ensures unchanged { OnErr result (self.new ≡ self.old) }
    {
        let kept = Vec::from_slice(alloc, tag)?;
        let place = self.tags.len();
        if self.places.number(tag).is_some() {
            self.tags.push(Some(kept))?;
            return Ok(());
        }
        let key = Vec::from_slice(alloc, tag)?;
        self.tags.push(Some(kept))?;
        match self.places.set(key, Some(place)) {
            Ok(()) => Ok(()),
            Err(_) => {
                let _ = self.tags.pop();
                Err(NoMemory::OutOfMemory)
            }
        }
    }
}
