//! Lists of names.
ghost use Rattle.std.specs.Prelude.{◌≡◌, ◌++◌, ◌∷◌, [], length, slice_get, OnOk, OnErr};
ghost use Rattle.std.specs.Option.{option_map};
ghost use Rattle.im_rules.specs.Outline as o;

use crate::map::NameMap;
use im_num::NoMemory;
use std::alloc::Global;

/// Names in order, each of which is found by its bytes. Contracts see the list.
#[derive(Drop)]
pub struct NameList {
    names: Vec<Vec<u8>>,
    places: NameMap,
}

impl std::marker::Model for NameList {
    ghost use Rattle.std.specs.Prelude.{ℕ, List};

    ghost Value = { List (List ℕ) };

    ghost use Rattle.im_check_name_map.specs.Lists.{names_of, all_tags, HasPlaces};

    ghost view = { λ l. names_of l.names.items };

    ghost invariant = { λ l. HasPlaces (all_tags (names_of l.names.items)) l.places };
}

impl NameList {
    pub fn new(alloc: Global) -> NameList
        ensures { result ≡ [] }
    {
        NameList {
            names: Vec::new(alloc),
            places: NameMap::new(alloc),
        }
    }

    pub fn len(&self) -> usize
        ensures { result ≡ length self.now }
    {
        self.names.len()
    }

    /// The name at a place.
    pub fn get(&self, place: usize) -> Option<&[u8]>
        ensures { option_map (λ name. name.now) result ≡ slice_get self.now place }
    {
        match self.names.get(place) {
            Some(name) => Some(name),
            None => None,
        }
    }

    /// Whether the name is in the list.
    pub fn contains(&self, name: &[u8]) -> bool
        ensures { result ≡ o.is_in name.now self.now }
    {
        self.places.number(name).is_some()
    }

    /// The name's first place in the list; the list's length where it isn't there.
    pub fn place(&self, name: &[u8]) -> usize
        ensures { result ≡ o.place_in name.now self.now }
    {
        match self.places.number(name) {
            Some(place) => place,
            None => self.names.len(),
        }
    }

    /// Puts a name behind the others.
    pub fn push(&mut self, alloc: Global, name: &[u8]) -> Result<(), NoMemory>
        ensures pushed { OnOk result (self.new ≡ self.old ++ name.now ∷ []) }
        ensures unchanged { OnErr result (self.new ≡ self.old) }
    {
        let kept = Vec::from_slice(alloc, name)?;
        let place = self.names.len();
        if self.places.number(name).is_some() {
            self.names.push(kept)?;
            return Ok(());
        }
        let key = Vec::from_slice(alloc, name)?;
        self.names.push(kept)?;
        match self.places.set(key, Some(place)) {
            Ok(()) => Ok(()),
            Err(_) => {
                let _ = self.names.pop();
                Err(NoMemory::OutOfMemory)
            }
        }
    }

    /// Puts a name behind the others, once.
    pub fn add(&mut self, alloc: Global, name: &[u8]) -> Result<(), NoMemory>
        ensures added { OnOk result (self.new ≡ o.added name.now self.old) }
        ensures unchanged { OnErr result (self.new ≡ self.old) }
    {
        if self.contains(name) {
            return Ok(());
        }
        self.push(alloc, name)
    }
}
