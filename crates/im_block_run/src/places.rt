ghost use Rattle.std.specs.Prelude.{◌≡◌, ℕ};
ghost use Rattle.im_store.specs.Objects.{Named, Pointer, Store};
ghost use Rattle.im_block.specs.Meaning as meaning;
ghost use Rattle.im_eval_store.specs.Living.{Holds};
ghost use Rattle.im_eval_store.specs.Shown.{Checks, shown};
ghost use Rattle.im_block_run.specs.Shown.{IsFrame, plain};
ghost use Rattle.im_block_run.specs.Found.{Finds, Leaves, Locates};

use crate::state::Frame;
use crate::values::stored;
use im_block::Place;
use im_eval_store::{Memory, ObjectName, Place as Spot, Value};
use im_num::Kind;
use im_store::Undefined;

/// So many bytes behind a place; no bytes behind any value is that value.
fn further(memory: &Memory, offset: u32, value: Value) -> Result<Value, Undefined>
    ensures { (last : ℕ) (store : Store) → Holds memory.now last (plain store)
        → Checks result (meaning.further store offset (shown value)) }
{
    if offset == 0 {
        Ok(value)
    } else {
        memory.member(offset, value)
    }
}

/// The first place of an object of an activation.
fn start_of(activation: u64, depth: u32, object: u32) -> Value
    ensures { shown result ≡ Pointer (record { activation = activation; depth = depth; name = Named object }) 0 }
{
    Value::Pointer(Spot {
        object: ObjectName {
            activation,
            depth,
            number: object as u64,
        },
        offset: 0,
        level: 0,
    })
}

/// The address of a place.
pub(crate) fn place_of(memory: &Memory, frame: &Frame, place: Place) -> Result<Value, Undefined>
    ensures { (last : ℕ) (store : Store) (s : meaning.Frame) → Holds memory.now last (plain store)
        → IsFrame frame.now s
        → Checks result (meaning.place_of place s.active s.registers store) }
{
    match place {
        Place::Static { object, offset } => further(memory, offset, start_of(0, 0, object)),
        Place::Local { object, offset } => {
            further(memory, offset, start_of(frame.number, frame.depth, object))
        }
        Place::Through { pointer, offset } => further(memory, offset, frame.register(pointer)),
    }
}

/// Where an access through a value goes.
fn spot_of(value: Value) -> Result<Spot, Undefined>
    ensures { Locates result (meaning.location_of (shown value)) }
{
    match value {
        Value::Pointer(spot) => Ok(spot),
        Value::Number(_) | Value::Null | Value::Unset => Err(Undefined::NoSuchCell),
    }
}

/// Where an access goes.
fn located(memory: &Memory, frame: &Frame, place: Place) -> Result<Spot, Undefined>
    ensures { (last : ℕ) (store : Store) (s : meaning.Frame) → Holds memory.now last (plain store)
        → IsFrame frame.now s
        → Locates result (meaning.located place s.active s.registers store) }
{
    let value = place_of(memory, frame, place)?;
    spot_of(value)
}

/// What a read finds (C11 6.3.2.1).
pub(crate) fn read(
    memory: &Memory,
    frame: &Frame,
    place: Place,
    kind: Kind,
) -> Result<Value, Undefined>
    ensures { (last : ℕ) (store : Store) (s : meaning.Frame) → Holds memory.now last (plain store)
        → IsFrame frame.now s
        → Finds result (meaning.read_place place kind s.active s.registers store) }
{
    let spot = located(memory, frame, place)?;
    memory.read_cell(spot, 0, kind)
}

/// Writes a value (C11 6.5.16).
pub(crate) fn write(
    memory: &mut Memory,
    frame: &Frame,
    place: Place,
    kind: Kind,
    value: Value,
) -> Result<(), Undefined>
    ensures { (last : ℕ) (store : Store) (s : meaning.Frame) → Holds memory.old last (plain store)
        → IsFrame frame.now s → Leaves result memory.new last
        (meaning.write_place place kind (shown value) s.active s.registers store) }
{
    let spot = located(memory, frame, place)?;
    let taken = stored(kind, value)?;
    memory.write_cell(spot, 0, kind, taken)
}
