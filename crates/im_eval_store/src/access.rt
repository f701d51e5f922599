ghost use Rattle.std.specs.Prelude.{◌≡◌, ℕ, ◌+◌};
ghost use Rattle.im_store.specs.Objects.{Store};
ghost use Rattle.im_store.specs.Access.{read_cell, write_cell};
ghost use Rattle.im_eval_store.specs.Living.{Holds};
ghost use Rattle.im_eval_store.specs.Changes.{Stores};
ghost use Rattle.im_eval_store.specs.Shown.{Checks, object_of, shown};

use crate::memory::Memory;
use crate::value::{Place, Value};
use im_num::Kind;
use im_store::Undefined;

impl<'p> Memory<'p> {
    /// What the cell of a kind has that stands `by` bytes behind a place (C11 6.3.2.1).
    pub fn read_cell(&self, place: Place, by: u64, kind: Kind) -> Result<Value, Undefined>
        ensures { (last : ℕ) (store : Store) → Holds self.now last store → Checks result
            (read_cell store (object_of place.object) (place.offset + by) kind) }
    {
        let Some(offset) = by.checked_add(place.offset as u64) else {
            return Err(Undefined::NoSuchCell);
        };
        match self.position(place.object, place.level) {
            None => Err(Undefined::NoSuchCell),
            Some(at) => {
                let object = &self.activations[at.level].objects[at.index];
                if object.has_cell(offset, kind) {
                    self.taken(object.value(offset))
                } else {
                    Err(Undefined::NoSuchCell)
                }
            }
        }
    }

    /// Stores a value in the cell of a kind that stands `by` bytes behind a place (C11 6.5.16).
    pub fn write_cell(
        &mut self,
        place: Place,
        by: u64,
        kind: Kind,
        value: Value,
    ) -> Result<(), Undefined>
        ensures { (last : ℕ) (store : Store) → Holds self.old last store
            → Stores result self.new last
            (write_cell store (object_of place.object) (place.offset + by) kind (shown value)) }
    {
        let Some(offset) = by.checked_add(place.offset as u64) else {
            return Err(Undefined::NoSuchCell);
        };
        match self.position(place.object, place.level) {
            None => Err(Undefined::NoSuchCell),
            Some(at) => {
                let object = &mut self.activations[at.level].objects[at.index];
                if object.has_cell(offset, kind) {
                    object.set(offset, value);
                    Ok(())
                } else {
                    Err(Undefined::NoSuchCell)
                }
            }
        }
    }
}
