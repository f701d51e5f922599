ghost use Rattle.std.specs.Prelude.{◌≡◌, ◌≤ℤ◌, ◌^◌, ℕ, pos, neg_ℤ, if◌then◌else◌};
ghost use Rattle.im_store.specs.Applied.{Applies};
ghost use Rattle.im_store.specs.Objects as store;
ghost use Rattle.im_store.specs.Objects.{Store};
ghost use Rattle.im_store.specs.Pointers as pointers;
ghost use Rattle.im_eval_store.specs.Living.{Holds};
ghost use Rattle.im_eval_store.specs.Changes.{Decides};
ghost use Rattle.im_eval_store.specs.Shown.{Checks, object_of, shown};

use crate::memory::Memory;
use crate::value::{Place, Value};
use im_store::{Comparison, Number, Undefined, compared};

impl Value {
    /// A truth as a number (C11 6.5.8p6).
    pub fn truth(holds: bool) -> Value
        ensures { shown result ≡ store.Number (if holds then pos 1 else pos 0) }
    {
        if holds {
            Value::Number(Number::ONE)
        } else {
            Value::Number(Number::ZERO)
        }
    }

    /// Whether a value holds as a condition (C11 6.8.4.1p2).
    pub fn holds(self) -> bool
        ensures { result ≡ pointers.holds (shown self) }
    {
        match self {
            Value::Number(number) => number.value != 0,
            Value::Null => false,
            Value::Pointer(_) => true,
            Value::Unset => false,
        }
    }

    /// Whether two pointers are to one place, or both null (C11 6.5.9p6).
    fn is_same_place(self, other: Value) -> bool
        ensures { result ≡ pointers.same_place (shown self) (shown other) }
    {
        match (self, other) {
            (Value::Pointer(from), Value::Pointer(to)) => {
                from.object.is(to.object) && from.offset == to.offset
            }
            (Value::Null, Value::Null) => true,
            _ => false,
        }
    }

    /// Whether a comparison of two values holds, or why that has no meaning (C11 6.5.8, 6.5.9).
    pub fn compare(self, op: Comparison, other: Value) -> Result<bool, Undefined>
        ensures { Decides result (pointers.compare_values op (shown self) (shown other)) }
    {
        match (self, other) {
            (Value::Number(left), Value::Number(right)) => Ok(compared(op, left, right)),
            _ => self.compare_places(op, other),
        }
    }

    /// The same of two pointers.
    fn compare_places(self, op: Comparison, other: Value) -> Result<bool, Undefined>
        ensures { Decides result (pointers.compare_places op (shown self) (shown other)) }
    {
        match op {
            Comparison::Equal => Ok(self.is_same_place(other)),
            Comparison::NotEqual => Ok(!self.is_same_place(other)),
            Comparison::Less
            | Comparison::Greater
            | Comparison::LessOrEqual
            | Comparison::GreaterOrEqual => self.order(op, other),
        }
    }

    /// The order of two places of one object (C11 6.5.8p5).
    fn order(self, op: Comparison, other: Value) -> Result<bool, Undefined>
        ensures { Decides result (pointers.ordered op (shown self) (shown other)) }
    {
        match (self, other) {
            (Value::Pointer(from), Value::Pointer(to)) => from.order(op, to),
            _ => Err(Undefined::UnrelatedPointers),
        }
    }

    /// The elements of `size` bytes between two places of one object (C11 6.5.6p9).
    pub fn distance(self, size: u32, other: Value) -> Result<Number, Undefined>
        ensures { Applies result (pointers.distance size (shown self) (shown other)) }
    {
        match (self, other) {
            (Value::Pointer(from), Value::Pointer(to)) => from.distance(size, to),
            _ => Err(Undefined::UnrelatedPointers),
        }
    }

    /// Whether so many bytes at two places overlap in part: they share some, and don't begin at
    /// the same place (C11 6.5.16.1p3).
    pub fn overlaps_in_part(self, size: u128, other: Value) -> bool
        ensures { result ≡ pointers.overlap_in_part size (shown self) (shown other) }
    {
        match (self, other) {
            (Value::Pointer(from), Value::Pointer(to)) => from.overlaps_in_part(size, to),
            _ => false,
        }
    }
}

impl Place {
    /// The order of two places of one object.
    fn order(self, op: Comparison, other: Place) -> Result<bool, Undefined>
        ensures { Decides result (pointers.ordered op
            (store.Pointer (object_of self.object) self.offset)
            (store.Pointer (object_of other.object) other.offset)) }
    {
        if !self.object.is(other.object) {
            return Err(Undefined::UnrelatedPointers);
        }
        let left = Number {
            value: self.offset as i128,
        };
        let right = Number {
            value: other.offset as i128,
        };
        Ok(compared(op, left, right))
    }

    /// The elements of `size` bytes from another place of the same object to this one.
    fn distance(self, size: u32, other: Place) -> Result<Number, Undefined>
        ensures { Applies result (pointers.distance size
            (store.Pointer (object_of self.object) self.offset)
            (store.Pointer (object_of other.object) other.offset)) }
    {
        if !self.object.is(other.object) {
            return Err(Undefined::UnrelatedPointers);
        }
        let bytes = self.offset as i128 - other.offset as i128;
        if size == 0 {
            return if bytes == 0 {
                Ok(Number::ZERO)
            } else {
                Err(Undefined::UnrelatedPointers)
            };
        }
        if bytes % size as i128 != 0 {
            return Err(Undefined::UnrelatedPointers);
        }
        Ok(Number {
            value: bytes / size as i128,
        })
    }

    /// Whether so many bytes at this place and at another one overlap in part.
    fn overlaps_in_part(self, size: u128, other: Place) -> bool
        ensures { result ≡ pointers.overlap_in_part size
            (store.Pointer (object_of self.object) self.offset)
            (store.Pointer (object_of other.object) other.offset) }
    {
        let apart = self.offset.abs_diff(other.offset);
        self.object.is(other.object) && apart != 0 && (apart as u128) < size
    }
}

/// How many bytes so many elements are, to lower offsets if `back`.
fn bytes_moved(size: u32, back: bool, by: Number) -> i128
    ensures value { result ≡ pointers.bytes_moved size back by.value }
    ensures low { neg_ℤ (pos (2 ^ 100)) ≤ℤ result }
    ensures high { result ≤ℤ pos (2 ^ 100) }
{
    let bytes = by.value * size as i128;
    if back { -bytes } else { bytes }
}

impl<'p> Memory<'p> {
    /// A pointer moved by so many elements of `size` bytes, to lower offsets if `back` (C11
    /// 6.5.6p8).
    pub fn moved(
        &self,
        size: u32,
        back: bool,
        by: Number,
        pointer: Value,
    ) -> Result<Value, Undefined>
        ensures { (last : ℕ) (store : Store) → Holds self.now last store → Checks result
            (pointers.moved_by store (pointers.bytes_moved size back by.value) (shown pointer)) }
    {
        match pointer {
            Value::Pointer(place) => {
                let bytes = bytes_moved(size, back, by);
                self.within(place, place.offset as i128 + bytes)
            }
            Value::Number(_) => Err(Undefined::OutsideObject),
            Value::Null => Err(Undefined::OutsideObject),
            Value::Unset => Err(Undefined::OutsideObject),
        }
    }

    /// The place of a member, so many bytes behind the start of its struct (C11 6.5.2.3).
    pub fn member(&self, offset: u32, whole: Value) -> Result<Value, Undefined>
        ensures { (last : ℕ) (store : Store) → Holds self.now last store
            → Checks result (pointers.member_at store offset (shown whole)) }
    {
        match whole {
            Value::Pointer(place) => { self.within(place, place.offset as i128 + offset as i128) }
            Value::Number(_) => Err(Undefined::NoSuchCell),
            Value::Null => Err(Undefined::NoSuchCell),
            Value::Unset => Err(Undefined::NoSuchCell),
        }
    }
}
