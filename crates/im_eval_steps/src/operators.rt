ghost use Rattle.std.specs.Prelude.{◌≡◌, ℕ, not};
ghost use Rattle.im_num.specs.Kinds.{wrap};
ghost use Rattle.im_store.specs.Numbers.{apply, apply_one};
ghost use Rattle.im_store.specs.Pointers.{compare_values, holds};
ghost use Rattle.im_typed.specs.Runs.{Answer, State, checked, goes_on};
ghost use Rattle.im_typed.specs.Values as typed_values;
ghost use Rattle.im_typed.specs.Values.{Values};
ghost use Rattle.im_eval_store.specs.Living.{Holds};
ghost use Rattle.im_eval_store.specs.Shown.{shown};
ghost use Rattle.im_eval_machine.specs.Shown.{one};
ghost use Rattle.im_eval_steps.specs.Seen.{Sees};

use crate::parts::{number, used};
use crate::unseen::Unseen;
use im_eval_store::{Memory, Value};
use im_num::Kind;
use im_store::{BinaryOp, Comparison, Number, UnaryOp, applied, applied_to_one, converted};

/// A conversion of an operand.
pub(crate) fn convert(
    memory: &Memory,
    kind: Kind,
    operand: Result<Value, Unseen>,
) -> Result<Value, Unseen>
    ensures { (last : ℕ) (s : State) (r : Answer Values) → Holds memory.now last s.world.store
        → Sees one operand s r → Sees one result s (goes_on (goes_on (goes_on r typed_values.used)
        (λ v. checked (typed_values.number_of v))) (λ z. typed_values.number (wrap kind z))) }
{
    match number(memory, operand) {
        Err(why) => Err(why),
        Ok(z) => Ok(Value::Number(converted(kind, z))),
    }
}

/// An operator on one operand.
pub(crate) fn unary(
    memory: &Memory,
    op: UnaryOp,
    kind: Kind,
    operand: Result<Value, Unseen>,
) -> Result<Value, Unseen>
    ensures { (last : ℕ) (s : State) (r : Answer Values) → Holds memory.now last s.world.store
        → Sees one operand s r → Sees one result s (goes_on (goes_on (goes_on r typed_values.used)
        (λ v. checked (typed_values.number_of v)))
        (λ z. typed_values.number (apply_one op kind z))) }
{
    match number(memory, operand) {
        Err(why) => Err(why),
        Ok(z) => Ok(Value::Number(applied_to_one(op, kind, z))),
    }
}

/// Whether an operand doesn't hold, as a number.
pub(crate) fn negated(memory: &Memory, operand: Result<Value, Unseen>) -> Result<Value, Unseen>
    ensures { (last : ℕ) (s : State) (r : Answer Values) → Holds memory.now last s.world.store
        → Sees one operand s r → Sees one result s (goes_on (goes_on r typed_values.used)
        (λ v. typed_values.truth (not (holds v)))) }
{
    match used(memory, operand) {
        Err(why) => Err(why),
        Ok(x) => Ok(Value::truth(!x.holds())),
    }
}

/// An operator on two numbers, once the left one is there.
pub(crate) fn binary(
    memory: &Memory,
    op: BinaryOp,
    kind: Kind,
    left: Number,
    right: Result<Value, Unseen>,
) -> Result<Value, Unseen>
    ensures { (last : ℕ) (s : State) (r : Answer Values) → Holds memory.now last s.world.store
        → Sees one right s r → Sees one result s (goes_on (goes_on (goes_on r typed_values.used)
        (λ v. checked (typed_values.number_of v)))
        (λ y t. goes_on (checked (apply op kind left.value y) t) typed_values.number)) }
{
    match number(memory, right) {
        Err(why) => Err(why),
        Ok(y) => match applied(op, kind, left, y) {
            Err(why) => Err(Unseen::Undefined(why)),
            Ok(number) => Ok(Value::Number(number)),
        },
    }
}

/// A comparison, once the left value is there.
pub(crate) fn compare(
    memory: &Memory,
    op: Comparison,
    left: Value,
    right: Result<Value, Unseen>,
) -> Result<Value, Unseen>
    ensures { (last : ℕ) (s : State) (r : Answer Values) → Holds memory.now last s.world.store
        → Sees one right s r → Sees one result s (goes_on (goes_on r typed_values.used)
        (λ y t. goes_on (checked (compare_values op (shown left) y) t) typed_values.truth)) }
{
    match used(memory, right) {
        Err(why) => Err(why),
        Ok(y) => match left.compare(op, y) {
            Err(why) => Err(Unseen::Undefined(why)),
            Ok(holds) => Ok(Value::truth(holds)),
        },
    }
}
