ghost use Rattle.std.specs.Prelude.{◌≡◌, ℕ};
ghost use Rattle.im_store.specs.Pointers.{member_at};
ghost use Rattle.im_typed.specs.Program.{Scalar};
ghost use Rattle.im_typed.specs.Runs.{Answer, State, checked, goes_on, in_store};
ghost use Rattle.im_typed.specs.Values as typed_values;
ghost use Rattle.im_typed.specs.Values.{Values};
ghost use Rattle.im_eval_store.specs.Living.{Holds};
ghost use Rattle.im_eval_store.specs.Shown.{shown};
ghost use Rattle.im_eval_machine.specs.Shown.{one};
ghost use Rattle.im_eval_steps.specs.Seen.{Sees, whole_of};

use crate::unseen::Unseen;
use im_eval_machine::number_of;
use im_eval_store::{Memory, Value};
use im_num::Kind;
use im_store::{Number, Undefined};

/// The value of an operand, where it is used.
pub(crate) fn used(memory: &Memory, seen: Result<Value, Unseen>) -> Result<Value, Unseen>
    ensures { (last : ℕ) (s : State) (r : Answer Values) → Holds memory.now last s.world.store
        → Sees one seen s r → Sees shown result s (goes_on r typed_values.used) }
{
    match seen {
        Err(why) => Err(why),
        Ok(value) => match memory.taken(value) {
            Err(why) => Err(Unseen::Undefined(why)),
            Ok(value) => Ok(value),
        },
    }
}

/// The number that an operand is, where it is used.
pub(crate) fn number(memory: &Memory, seen: Result<Value, Unseen>) -> Result<Number, Unseen>
    ensures { (last : ℕ) (s : State) (r : Answer Values) → Holds memory.now last s.world.store
        → Sees one seen s r → Sees whole_of result s (goes_on (goes_on r typed_values.used)
        (λ v. checked (typed_values.number_of v))) }
{
    match used(memory, seen) {
        Err(why) => Err(why),
        Ok(value) => match number_of(value) {
            Err(why) => Err(Unseen::Undefined(why)),
            Ok(number) => Ok(number),
        },
    }
}

/// What stands at a place in a cell of a kind.
pub(crate) fn read(memory: &Memory, kind: Kind, at: Value) -> Result<Value, Unseen>
    ensures { (last : ℕ) (s : State) → Holds memory.now last s.world.store
        → Sees one result s (typed_values.read_at (Scalar kind) (shown at) s) }
{
    match at {
        Value::Pointer(place) => match memory.read_cell(place, 0, kind) {
            Err(why) => Err(Unseen::Undefined(why)),
            Ok(value) => Ok(value),
        },
        Value::Number(_) | Value::Null | Value::Unset => {
            Err(Unseen::Undefined(Undefined::NoSuchCell))
        }
    }
}

/// The place of a member of the struct at a place.
pub(crate) fn member(memory: &Memory, offset: u32, whole: Value) -> Result<Value, Unseen>
    ensures { (last : ℕ) (s : State) → Holds memory.now last s.world.store
        → Sees shown result s (in_store (λ store. member_at store offset (shown whole)) s) }
{
    match memory.member(offset, whole) {
        Err(why) => Err(Unseen::Undefined(why)),
        Ok(at) => Ok(at),
    }
}
