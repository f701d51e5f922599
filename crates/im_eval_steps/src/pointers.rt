ghost use Rattle.std.specs.Prelude.{◌≡◌, ℕ};
ghost use Rattle.im_ctype.specs.Table.{Table};
ghost use Rattle.im_store.specs.Objects as objects;
ghost use Rattle.im_store.specs.Pointers.{member_at, moved_by, bytes_moved};
ghost use Rattle.im_typed.specs.ProgramOf.{access_of};
ghost use Rattle.im_typed.specs.Runs.{Answer, State, checked, goes_on, in_store};
ghost use Rattle.im_typed.specs.Values as typed_values;
ghost use Rattle.im_typed.specs.Values.{Values};
ghost use Rattle.im_eval_store.specs.Living.{Holds};
ghost use Rattle.im_eval_store.specs.Shown.{shown};
ghost use Rattle.im_eval_machine.specs.Shown.{one};
ghost use Rattle.im_eval_steps.specs.Seen.{Sees};

use crate::parts::{member, number, read};
use crate::unseen::Unseen;
use im_eval_store::{Memory, Value};
use im_typed::Access;

/// What stands at a place that was looked for, where it is a scalar.
pub(crate) fn read_from(
    memory: &Memory,
    access: Access,
    at: Result<Value, Unseen>,
) -> Result<Value, Unseen>
    ensures { (types : Table) (last : ℕ) (s : State) (r : Answer objects.Value)
        → Holds memory.now last s.world.store → Sees shown at s r
        → Sees one result s (goes_on r (typed_values.read_at (access_of types access))) }
{
    match access {
        Access::Struct { .. } => Err(Unseen::Elsewhere),
        Access::Scalar(kind) => match at {
            Err(why) => Err(why),
            Ok(at) => read(memory, kind, at),
        },
    }
}

/// The pointer to a place that was looked for.
pub(crate) fn address(at: Result<Value, Unseen>) -> Result<Value, Unseen>
    ensures { (s : State) (r : Answer objects.Value) → Sees shown at s r
        → Sees one result s (goes_on r typed_values.scalar) }
{
    match at {
        Err(why) => Err(why),
        Ok(at) => Ok(at),
    }
}

/// The place of a member of the struct at a place that was looked for.
pub(crate) fn member_of(
    memory: &Memory,
    offset: u32,
    whole: Result<Value, Unseen>,
) -> Result<Value, Unseen>
    ensures { (last : ℕ) (s : State) (r : Answer objects.Value) → Holds memory.now last s.world.store
        → Sees shown whole s r → Sees shown result s
        (goes_on r (λ v. in_store (λ store. member_at store offset v))) }
{
    match whole {
        Err(why) => Err(why),
        Ok(at) => member(memory, offset, at),
    }
}

/// A pointer moved by so many elements, once it is there.
pub(crate) fn moved(
    memory: &Memory,
    size: u32,
    back: bool,
    pointer: Value,
    by: Result<Value, Unseen>,
) -> Result<Value, Unseen>
    ensures { (last : ℕ) (s : State) (r : Answer Values) → Holds memory.now last s.world.store
        → Sees one by s r → Sees one result s (goes_on (goes_on (goes_on r typed_values.used)
        (λ v. checked (typed_values.number_of v)))
        (λ z t. goes_on (in_store (λ store. moved_by store (bytes_moved size back z)
        (shown pointer)) t) typed_values.scalar)) }
{
    match number(memory, by) {
        Err(why) => Err(why),
        Ok(z) => match memory.moved(size, back, z, pointer) {
            Err(why) => Err(Unseen::Undefined(why)),
            Ok(at) => Ok(at),
        },
    }
}
