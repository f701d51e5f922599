ghost use Rattle.std.specs.Prelude.{◌≡◌, ◌<◌, ℕ, length, IfSome};
ghost use Rattle.im_store.specs.Objects.{Store, lives};
ghost use Rattle.im_store.specs.Access.{taken};
ghost use Rattle.im_store.specs.Pointers.{within};
ghost use Rattle.im_eval_store.specs.Living.{Ascends, Holds, activation_at};
ghost use Rattle.im_eval_store.specs.Changes.{IsWithin, StandsAt, at_level};
ghost use Rattle.im_eval_store.specs.Shown.{Checks, object_of, shown};

use crate::memory::{Memory, Position};
use crate::value::{ObjectName, Place, Value};
use im_store::Undefined;

impl<'p> Memory<'p> {
    /// Where the activation of that number stands; `level` is where it is looked for first.
    pub(crate) fn level_of(&self, number: u64, level: usize) -> Option<usize>
        ensures found { (last : ℕ) → Ascends 0 last self.now.activations.items
            → activation_at self.now.activations.items number
            ≡ at_level self.now.activations.items result }
        ensures within { IfSome result (λ at. at < length self.now.activations.items) }
    {
        if let Some(activation) = self.activations.get(level) {
            if activation.number == number {
                return Some(level);
            }
        }
        let mut at = 0;
        'search: while at < self.activations.len() {
            if self.activations[at].number == number {
                return Some(at);
            }
            at += 1;
        }
        None
    }

    /// Where an object is held, if it lives; `level` is where it is looked for first.
    pub fn position(&self, object: ObjectName, level: usize) -> Option<Position>
        ensures found { (last : ℕ) → Ascends 0 last self.now.activations.items
            → StandsAt self.now.activations.items object result }
        ensures within { IfSome result (IsWithin self.now.activations.items) }
    {
        let level = self.level_of(object.activation, level)?;
        let activation = &self.activations[level];
        if activation.depth != object.depth || object.number < activation.first {
            return None;
        }
        let index = (object.number - activation.first) as usize;
        if index >= activation.objects.len() {
            return None;
        }
        Some(Position { level, index })
    }

    /// Whether an object lives.
    pub fn lives(&self, place: Place) -> bool
        ensures { (last : ℕ) (store : Store) → Holds self.now last store
            → result ≡ lives store (object_of place.object) }
    {
        self.position(place.object, place.level).is_some()
    }

    /// A value that was read from a cell, or that a call gave: it is there, and no pointer to a
    /// dead object (C11 6.2.4, 6.3.2.1).
    pub fn taken(&self, value: Value) -> Result<Value, Undefined>
        ensures { (last : ℕ) (store : Store) → Holds self.now last store
            → Checks result (taken store (shown value)) }
    {
        match value {
            Value::Number(number) => Ok(Value::Number(number)),
            Value::Null => Ok(Value::Null),
            Value::Pointer(place) => {
                if self.lives(place) {
                    Ok(Value::Pointer(place))
                } else {
                    Err(Undefined::DeadPointerRead)
                }
            }
            Value::Unset => Err(Undefined::UninitialisedRead),
        }
    }

    /// The place at an offset of the object of a place, within the object or at its end (C11
    /// 6.5.6).
    pub fn within(&self, place: Place, offset: i128) -> Result<Value, Undefined>
        ensures { (last : ℕ) (store : Store) → Holds self.now last store
            → Checks result (within store (object_of place.object) offset) }
    {
        if offset < 0 {
            return Err(Undefined::OutsideObject);
        }
        match self.position(place.object, place.level) {
            None => Err(Undefined::OutsideObject),
            Some(at) => {
                let size = self.activations[at.level].objects[at.index].plan.size;
                if offset > size as i128 {
                    return Err(Undefined::OutsideObject);
                }
                Ok(Value::Pointer(Place {
                    object: place.object,
                    offset: offset as u32,
                    level: at.level,
                }))
            }
        }
    }
}
