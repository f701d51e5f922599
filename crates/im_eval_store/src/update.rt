ghost use Rattle.std.specs.Prelude.{◌≡◌, ℕ};
ghost use Rattle.im_store.specs.Objects.{Store, Unset};
ghost use Rattle.im_eval_store.specs.Living.{Holds};
ghost use Rattle.im_eval_store.specs.Changes.{with_values, cleared, kind_in};
ghost use Rattle.im_eval_store.specs.Shown.{object_of};

use crate::memory::Memory;
use crate::value::ObjectName;

impl<'p> Memory<'p> {
    /// No cell of an object has a value (C11 6.2.4p6); `level` is where it is looked for first.
    pub fn forget(&mut self, object: ObjectName, level: usize)
        ensures { (last : ℕ) (store : Store) → Holds self.old last store → Holds self.new last
            (with_values (object_of object) (λ i. Unset) store) }
    {
        match self.position(object, level) {
            None => {}
            Some(at) => self.activations[at.level].objects[at.index].forget(),
        }
    }

    /// The cells of an object but for those at these offsets become zero or null (C11 6.7.9p21).
    pub fn clear(&mut self, object: ObjectName, level: usize, given: &[u64])
        ensures { (last : ℕ) (store : Store) → Holds self.old last store → Holds self.new last
            (with_values (object_of object) (λ i. cleared given.now
            (kind_in (store.shape (object_of object)) i) (store.values (object_of object) i) i)
            store) }
    {
        match self.position(object, level) {
            None => {}
            Some(at) => self.activations[at.level].objects[at.index].clear(given),
        }
    }
}
