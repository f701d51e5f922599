ghost use Rattle.std.specs.Prelude.{◌≡◌, ◌∷◌, ◌||◌, [], IfOk};
ghost use Rattle.im_alias.specs.Ascending.{Adds, IsAscending};

use im_num::NoMemory;
use std::alloc::Global;

pub fn either(one: bool, other: bool) -> bool
    ensures { result ≡ (one || other) }
{
    one || other
}

/// Objects by their numbers in the unit, in ascending order.
#[derive(Drop)]
pub struct ObjectSet {
    pub members: Vec<u32>,
    pub ghost ascending: { IsAscending members.items },
}

impl ObjectSet {
    pub fn new(alloc: Global) -> ObjectSet
        ensures { result.members.items ≡ [] }
    {
        ObjectSet {
            members: Vec::new(alloc),
        }
    }

    pub fn one(alloc: Global, object: u32) -> Result<ObjectSet, NoMemory>
        ensures { IfOk result (λ set. set.members.items ≡ object ∷ []) }
    {
        let mut members = Vec::new(alloc);
        members.push(object)?;
        Ok(ObjectSet { members })
    }

    pub fn copy(&self, alloc: Global) -> Result<ObjectSet, NoMemory>
        ensures { IfOk result (λ set. set.members.items ≡ self.now.members.items) }
    {
        let members = Vec::from_slice(alloc, &self.members)?;
        Ok(ObjectSet { members })
    }

    /// Whether the object wasn't there yet.
    fn add(&mut self, object: u32) -> Result<bool, NoMemory>
        ensures { IfOk result (λ changed. Adds self.old.members.items (object ∷ []) self.new.members.items changed) }
    {
        match self.members.binary_search(&object) {
            Ok(_) => Ok(false),
            Err(at) => {
                self.members.insert(at, object)?;
                Ok(true)
            }
        }
    }

    /// Whether one of the objects wasn't there yet.
    pub fn add_all(&mut self, objects: &ObjectSet) -> Result<bool, NoMemory>
        ensures { IfOk result (λ changed. Adds self.old.members.items objects.now.members.items self.new.members.items changed) }
    {
        let mut changed = false;
        for object in &objects.members {
            let more = self.add(*object)?;
            changed = either(changed, more);
        }
        Ok(changed)
    }
}
