ghost use Rattle.std.specs.Prelude.{◌≡◌, ℕ};
ghost use Rattle.im_store.specs.Applied.{Applies};
ghost use Rattle.im_store.specs.Objects.{Store};
ghost use Rattle.im_eval_store.specs.Living.{Holds};
ghost use Rattle.im_eval_store.specs.Shown.{Checks, shown};
ghost use Rattle.im_typed.specs.Values as typed_values;
ghost use Rattle.im_eval_machine.specs.Operators.{gives};
ghost use Rattle.im_eval_machine.specs.Small as small_numbers;
ghost use Rattle.im_eval_machine.specs.Steps.{altered};

use im_eval_store::{Memory, Value};
use im_num::Kind;
use im_store::{
    BinaryOp, Comparison, Number, UnaryOp, Undefined, applied, applied_to_one, converted,
};
use im_typed::Change;

/// An operator whose operands are there but for the last one.
#[derive(Clone, Copy)]
pub enum Last {
    Convert(Kind),
    Unary(UnaryOp, Kind),
    Binary(BinaryOp, Kind, Number),
    /// The number of elements comes.
    Move {
        size: u32,
        back: bool,
        pointer: Value,
    },
    /// The pointer comes.
    MoveBy {
        size: u32,
        by: Number,
    },
    Distance {
        size: u32,
        left: Value,
    },
    Compare(Comparison, Value),
    Not,
    /// The right operand of `&&` or `||`.
    Holds,
}

/// A number as the operators take it; of a number with more bits, 0.
pub fn small(value: i128) -> Number
    ensures { result.value ≡ small_numbers.small value }
{
    match Number::of(value) {
        Some(number) => number,
        None => Number::ZERO,
    }
}

/// The number that a value is.
pub fn number_of(value: Value) -> Result<Number, Undefined>
    ensures { Applies result (typed_values.number_of (shown value)) }
{
    match value {
        Value::Number(number) => Ok(number),
        Value::Null | Value::Pointer(_) | Value::Unset => Err(Undefined::NoSuchCell),
    }
}

/// What an operator gives, once its last operand is there.
pub fn finished(memory: &Memory, last: Last, value: Value) -> Result<Value, Undefined>
    ensures { (begun : ℕ) (store : Store) → Holds memory.now begun store
        → Checks result (gives last (shown value) store) }
{
    match last {
        Last::Convert(kind) => {
            let number = number_of(value)?;
            Ok(Value::Number(converted(kind, number)))
        }
        Last::Unary(op, kind) => {
            let number = number_of(value)?;
            Ok(Value::Number(applied_to_one(op, kind, number)))
        }
        Last::Binary(op, kind, left) => {
            let right = number_of(value)?;
            Ok(Value::Number(applied(op, kind, left, right)?))
        }
        Last::Move {
            size,
            back,
            pointer,
        } => {
            let by = number_of(value)?;
            memory.moved(size, back, by, pointer)
        }
        Last::MoveBy { size, by } => memory.moved(size, false, by, value),
        Last::Distance { size, left } => Ok(Value::Number(left.distance(size, value)?)),
        Last::Compare(op, left) => Ok(Value::truth(left.compare(op, value)?)),
        Last::Not => Ok(Value::truth(!value.holds())),
        Last::Holds => Ok(Value::truth(value.holds())),
    }
}

/// What a change makes of the old value (C11 6.5.16.2).
pub fn changed(memory: &Memory, change: Change, old: Value, by: Number) -> Result<Value, Undefined>
    ensures { (last : ℕ) (store : Store) → Holds memory.now last store
        → Checks result (altered change (shown old) by.value store) }
{
    match change {
        Change::Number { kind, op, at } => {
            let number = number_of(old)?;
            let result = applied(op, at, converted(at, number), by)?;
            Ok(Value::Number(converted(kind, result)))
        }
        Change::Move { size, back } => memory.moved(size, back, by, old),
    }
}

/// The kind of the cell that a change changes.
pub fn changed_kind(change: Change) -> Kind
    ensures { result ≡ typed_values.changed_kind change }
{
    match change {
        Change::Number { kind, .. } => kind,
        Change::Move { .. } => Kind::Ptr,
    }
}
