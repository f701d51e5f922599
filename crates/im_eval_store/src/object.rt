ghost use Rattle.std.specs.Prelude.{◌≡◌, ◌==◌, ℕ, length, get_or, None, IfOk, if◌then◌else◌};
ghost use Rattle.im_store.specs.Access.{is_of_kind};
ghost use Rattle.im_eval_store.specs.declared.value.Value.TheVariants.{Unset};
ghost use Rattle.im_eval_store.specs.Changes.{with_cell, cleared, stands_in};
ghost use Rattle.im_eval_store.specs.Shown.{shown};

use crate::memory::Live;
use crate::plan::Plan;
use crate::value::Value;
use im_num::{Kind, NoMemory};
use im_store::Number;
use std::alloc::Global;

impl<'p> Live<'p> {
    /// An object without values.
    pub fn new(alloc: Global, plan: &'p Plan) -> Result<Live<'p>, NoMemory>
        ensures plan { IfOk result (λ x. x.plan ≡ plan.entry) }
        ensures values { IfOk result (λ x. (i : ℕ) → get_or x.values.items i Unset ≡ Unset) }
    {
        let mut values = Vec::new(alloc);
        'fill: while values.len() < plan.kinds.len() {
            values.push(Value::Unset)?;
        }
        Ok(Live { plan, values })
    }

    /// Whether a cell of that kind stands at an offset.
    pub fn has_cell(&self, offset: u64, kind: Kind) -> bool
        ensures { result ≡ is_of_kind kind (get_or self.now.plan.now.kinds.items offset None) }
    {
        match self.plan.kind(offset) {
            None => false,
            Some(found) => found == kind,
        }
    }

    /// What the cell at an offset has.
    pub fn value(&self, offset: u64) -> Value
        ensures { result ≡ get_or self.now.values.items offset Unset }
    {
        match self.values.get(offset as usize) {
            None => Value::Unset,
            Some(value) => *value,
        }
    }

    /// The cell at an offset has a value, where there is such a cell.
    pub fn set(&mut self, offset: u64, value: Value)
        ensures plan { self.new.plan ≡ self.old.plan }
        ensures values { (i : ℕ) → get_or self.new.values.items i Unset
            ≡ with_cell self.old.values.items offset value i }
    {
        if (offset as usize) < self.values.len() {
            self.values[offset as usize] = value;
        }
    }

    /// No cell has a value (C11 6.2.4p6).
    pub fn forget(&mut self)
        ensures plan { self.new.plan ≡ self.old.plan }
        ensures values { (i : ℕ) → get_or self.new.values.items i Unset ≡ Unset }
    {
        let count = self.values.len();
        for offset in 0..count {
            self.set(offset as u64, Value::Unset);
        }
    }

    /// The cells but for those at these offsets become zero or null (C11 6.7.9p21).
    pub fn clear(&mut self, given: &[u64])
        ensures plan { self.new.plan ≡ self.old.plan }
        ensures values { (i : ℕ) → shown (get_or self.new.values.items i Unset)
            ≡ cleared given.now (get_or self.old.plan.now.kinds.items i None)
            (shown (get_or self.old.values.items i Unset)) i }
    {
        let count = self.values.len() as u64;
        for offset in 0..count {
            self.clear_one(given, offset);
        }
    }

    /// The cell at an offset becomes zero or null, where it isn't given.
    fn clear_one(&mut self, given: &[u64], offset: u64)
        ensures plan { self.new.plan ≡ self.old.plan }
        ensures values { (i : ℕ) → shown (get_or self.new.values.items i Unset)
            ≡ (if i == offset then cleared given.now (get_or self.old.plan.now.kinds.items i None)
            (shown (get_or self.old.values.items i Unset)) i
            else shown (get_or self.old.values.items i Unset)) }
    {
        if !stands_in(given, offset) {
            match self.plan.kind(offset) {
                None => {}
                Some(Kind::Ptr) => self.set(offset, Value::Null),
                Some(_) => self.set(offset, Value::Number(Number::ZERO)),
            }
        }
    }
}

/// Whether an offset is among these.
fn stands_in(given: &[u64], offset: u64) -> bool
    ensures { result ≡ stands_in offset given.now }
{
    let mut left = given.len();
    'search: while left > 0 {
        left -= 1;
        if given[left] == offset {
            return true;
        }
    }
    false
}
