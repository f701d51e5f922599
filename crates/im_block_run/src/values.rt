ghost use Rattle.std.specs.Prelude.{◌≡◌, ℕ};
ghost use Rattle.im_store.specs.Applied.{Applies};
ghost use Rattle.im_store.specs.Checks.{Fine, then_};
ghost use Rattle.im_store.specs.Numbers.{compares};
ghost use Rattle.im_store.specs.Objects.{Store};
ghost use Rattle.im_store.specs.Pointers.{compare_places};
ghost use Rattle.im_block.specs.Meaning as meaning;
ghost use Rattle.im_eval_store.specs.Living.{Holds};
ghost use Rattle.im_eval_store.specs.Changes.{Decides};
ghost use Rattle.im_eval_store.specs.Shown.{Checks, shown};
ghost use Rattle.im_block_run.specs.Shown.{plain};

use im_eval_store::{Memory, Value};
use im_num::{Kind, to_word};
use im_store::{
    BinaryOp, Comparison, Number, UnaryOp, Undefined, applied, applied_to_one,
    compared as compared_numbers, converted as converted_number,
};

/// A number in use.
pub(crate) fn number_of(value: Value) -> Result<Number, Undefined>
    ensures { Applies result (meaning.number_of (shown value)) }
{
    match value {
        Value::Number(number) => Ok(number),
        Value::Null | Value::Pointer(_) | Value::Unset => Err(Undefined::MissingResult),
    }
}

/// A pointer in use (C11 6.2.4).
fn pointer_of(memory: &Memory, value: Value) -> Result<Value, Undefined>
    ensures { (last : ℕ) (store : Store) → Holds memory.now last (plain store)
        → Checks result (meaning.pointer_of store (shown value)) }
{
    match value {
        Value::Null => Ok(Value::Null),
        Value::Pointer(place) => {
            if memory.lives(place) {
                Ok(Value::Pointer(place))
            } else {
                Err(Undefined::DeadPointerRead)
            }
        }
        Value::Number(_) | Value::Unset => Err(Undefined::MissingResult),
    }
}

/// A value as a condition: a number is looked at in 32 bits.
pub(crate) fn condition(memory: &Memory, value: Value) -> Result<bool, Undefined>
    ensures { (last : ℕ) (store : Store) → Holds memory.now last (plain store)
        → Decides result (meaning.condition store (shown value)) }
{
    match value {
        Value::Number(number) => Ok(to_word(number.value) != 0),
        Value::Null => Ok(false),
        Value::Pointer(place) => {
            if memory.lives(place) {
                Ok(true)
            } else {
                Err(Undefined::DeadPointerRead)
            }
        }
        Value::Unset => Err(Undefined::MissingResult),
    }
}

/// 1 where a value fails as a condition, else 0 (C11 6.5.3.3).
pub(crate) fn negation(memory: &Memory, value: Value) -> Result<Value, Undefined>
    ensures { (last : ℕ) (store : Store) → Holds memory.now last (plain store)
        → Checks result (meaning.as_truth (meaning.negation store (shown value))) }
{
    let holds = condition(memory, value)?;
    Ok(Value::truth(!holds))
}

/// A number brought into a kind (C11 6.3.1.3).
fn in_kind(kind: Kind, value: Value) -> Result<Number, Undefined>
    ensures { Applies result (meaning.converted kind (shown value)) }
{
    let number = number_of(value)?;
    Ok(converted_number(kind, number))
}

/// A value brought into an integer kind (C11 6.3.1.3).
pub(crate) fn converted(kind: Kind, value: Value) -> Result<Value, Undefined>
    ensures { Checks result (meaning.as_number (meaning.converted kind (shown value))) }
{
    let number = in_kind(kind, value)?;
    Ok(Value::Number(number))
}

/// An operator on one value (C11 6.5.3.3).
pub(crate) fn computed_one(op: UnaryOp, kind: Kind, value: Value) -> Result<Value, Undefined>
    ensures { Checks result (meaning.as_number (meaning.computed_one op kind (shown value))) }
{
    let number = in_kind(kind, value)?;
    Ok(Value::Number(applied_to_one(op, kind, number)))
}

/// The right operand in the kind of an operator; the count of a shift is taken as it is.
fn right_of(op: BinaryOp, kind: Kind, number: Number) -> Number
    ensures { result.value ≡ meaning.right_of op kind number.value }
{
    match op {
        BinaryOp::ShiftLeft | BinaryOp::ShiftRight => number,
        BinaryOp::Add
        | BinaryOp::Subtract
        | BinaryOp::Multiply
        | BinaryOp::Divide
        | BinaryOp::Remainder
        | BinaryOp::BitAnd
        | BinaryOp::BitOr
        | BinaryOp::BitXor => converted_number(kind, number),
    }
}

/// An operator on two values (C11 6.5.5 to 6.5.12).
pub(crate) fn computed(
    op: BinaryOp,
    kind: Kind,
    left: Value,
    right: Value,
) -> Result<Value, Undefined>
    ensures { Checks result
        (meaning.as_number (meaning.computed op kind (shown left) (shown right))) }
{
    let a = in_kind(kind, left)?;
    let b = number_of(right)?;
    let number = applied(op, kind, a, right_of(op, kind, b))?;
    Ok(Value::Number(number))
}

/// Whether two pointers compare so (C11 6.5.8, 6.5.9).
fn places_compared(
    memory: &Memory,
    op: Comparison,
    left: Value,
    right: Value,
) -> Result<bool, Undefined>
    ensures { (last : ℕ) (store : Store) → Holds memory.now last (plain store) → Decides result
        (then_ (meaning.pointer_of store (shown left)) (λ a.
        then_ (meaning.pointer_of store (shown right)) (λ b. compare_places op a b))) }
{
    let a = pointer_of(memory, left)?;
    let b = pointer_of(memory, right)?;
    a.compare(op, b)
}

/// Whether two numbers compare so in a kind.
fn numbers_compared(
    op: Comparison,
    kind: Kind,
    left: Value,
    right: Value,
) -> Result<bool, Undefined>
    ensures { Decides result (then_ (meaning.converted kind (shown left)) (λ a.
        then_ (meaning.converted kind (shown right)) (λ b. Fine (compares op a b)))) }
{
    let a = in_kind(kind, left)?;
    let b = in_kind(kind, right)?;
    Ok(compared_numbers(op, a, b))
}

/// Whether two values compare so: pointers where the kind is that of pointers, else numbers.
fn holds(
    memory: &Memory,
    op: Comparison,
    kind: Kind,
    left: Value,
    right: Value,
) -> Result<bool, Undefined>
    ensures { (last : ℕ) (store : Store) → Holds memory.now last (plain store) → Decides result
        (meaning.compared store op kind (shown left) (shown right)) }
{
    match kind {
        Kind::Ptr => places_compared(memory, op, left, right),
        _ => numbers_compared(op, kind, left, right),
    }
}

/// 1 where two values compare so, else 0.
pub(crate) fn compared(
    memory: &Memory,
    op: Comparison,
    kind: Kind,
    left: Value,
    right: Value,
) -> Result<Value, Undefined>
    ensures { (last : ℕ) (store : Store) → Holds memory.now last (plain store) → Checks result
        (meaning.as_truth (meaning.compared store op kind (shown left) (shown right))) }
{
    let is_so = holds(memory, op, kind, left, right)?;
    Ok(Value::truth(is_so))
}

/// A pointer moved by so many elements of `size` bytes, to lower offsets if `back` (C11 6.5.6p8).
pub(crate) fn moved(
    memory: &Memory,
    size: u32,
    back: bool,
    pointer: Value,
    by: Value,
) -> Result<Value, Undefined>
    ensures { (last : ℕ) (store : Store) → Holds memory.now last (plain store) → Checks result
        (meaning.moved store size back (shown pointer) (shown by)) }
{
    let number = number_of(by)?;
    memory.moved(size, back, number, pointer)
}

/// The difference of two pointers, in elements of `size` bytes (C11 6.5.6p9).
pub(crate) fn distance(
    memory: &Memory,
    size: u32,
    left: Value,
    right: Value,
) -> Result<Value, Undefined>
    ensures { (last : ℕ) (store : Store) → Holds memory.now last (plain store) → Checks result
        (meaning.as_number (meaning.distance_of store size (shown left) (shown right))) }
{
    let a = pointer_of(memory, left)?;
    let b = pointer_of(memory, right)?;
    let number = a.distance(size, b)?;
    Ok(Value::Number(number))
}

/// What a cell of a kind takes.
pub(crate) fn stored(kind: Kind, value: Value) -> Result<Value, Undefined>
    ensures { Checks result (meaning.stored kind (shown value)) }
{
    match (value, kind) {
        (Value::Null, Kind::Ptr) => Ok(Value::Null),
        (Value::Pointer(place), Kind::Ptr) => Ok(Value::Pointer(place)),
        (_, Kind::Ptr) => Err(Undefined::MissingResult),
        (Value::Number(number), _) => Ok(Value::Number(converted_number(kind, number))),
        (_, _) => Err(Undefined::MissingResult),
    }
}
