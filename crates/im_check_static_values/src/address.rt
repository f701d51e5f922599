//! Address constants: places in statics that are reached by members and constant moves (C11 6.6p9).
ghost use Rattle.std.specs.Prelude.{◌≡◌, ◌+ℤ◌, ◌*ℤ◌, ◌≤ℤ◌, ◌<ℤ◌, ◌^◌, pos, neg_ℤ, IfOk, Some};
ghost use Rattle.std.specs.Prelude.{if◌then◌else◌};
ghost use Rattle.std.specs.Option.{option_map};
ghost use Rattle.im_ctype.specs.Table.{Table};
ghost use Rattle.im_typed.specs.ProgramOf as q;
ghost use Rattle.im_check_items.specs.im_rules.StaticValues as v;
ghost use Rattle.im_check_static_values.specs.Spots.{spot_in, bytes_of, stepped, beginning};

use crate::sizes::Sizes;
use crate::steps::{Step, static_of};
use im_num::NoMemory;
use im_store::Number;
use im_typed::Expr;
use std::alloc::Global;

/// A place in a static, or at its end.
#[derive(Clone, Copy, Debug)]
pub struct Spot {
    /// The static's number.
    pub object: u32,
    /// Bytes from its start.
    pub offset: u64,
}

/// The place at that offset, if it lies within 0 to the object's size.
fn kept<S: Sizes>(sizes: &S, object: u32, offset: i128) -> Result<Option<Spot>, NoMemory>
    ensures { IfOk result (λ s. option_map spot_in s
        ≡ v.kept (S.size sizes.now) object offset) }
{
    let size = sizes.bytes(object)?;
    if 0 <= offset && offset <= size as i128 {
        Ok(Some(Spot {
            object,
            offset: offset as u64,
        }))
    } else {
        Ok(None)
    }
}

/// The offset that is so many elements of so many bytes further on, or further back.
fn target(offset: u64, bytes: u32, back: bool, by: Number) -> i128
    ensures { result ≡ pos offset +ℤ (if back then neg_ℤ (by.value *ℤ pos bytes)
        else by.value *ℤ pos bytes) }
{
    let distance = by.value * bytes as i128;
    if back {
        offset as i128 - distance
    } else {
        offset as i128 + distance
    }
}

/// The offset that is a step further on.
fn behind(offset: u64, step: Step) -> i128
    ensures { result ≡ pos offset +ℤ bytes_of step }
{
    match step {
        Step::Elements { bytes, back, by } => target(offset, bytes, back, by),
        Step::Member(by) => offset as i128 + by as i128,
    }
}

/// A place moved by a step.
fn moved<S: Sizes>(sizes: &S, from: Option<Spot>, step: Step) -> Result<Option<Spot>, NoMemory>
    ensures { IfOk result (λ s. option_map spot_in s
        ≡ v.moved_spot (S.size sizes.now) (option_map spot_in from) (Some (bytes_of step))) }
{
    match from {
        None => Ok(None),
        Some(spot) => kept(sizes, spot.object, behind(spot.offset, step)),
    }
}

/// A place moved by steps, the last one first.
fn moved_by<S: Sizes>(
    sizes: &S,
    from: Option<Spot>,
    mut steps: Vec<Step>,
) -> Result<Option<Spot>, NoMemory>
    ensures { IfOk result (λ s. option_map spot_in s
        ≡ stepped (S.size sizes.now) steps.items (option_map spot_in from)) }
{
    let mut spot = from;
    while let Some(step) = steps.pop() {
        spot = moved(sizes, spot, step)?;
    }
    Ok(spot)
}

/// The start of a static.
fn start_of(object: Option<u32>) -> Option<Spot>
    ensures { option_map spot_in result ≡ beginning object }
{
    match object {
        None => None,
        Some(object) => Some(Spot { object, offset: 0 }),
    }
}

/// The place in a static to which an expression points, if it is an address constant. Its steps
/// are taken from the static on, whose bytes bound each of them.
pub(crate) fn address_of<S: Sizes>(
    alloc: Global,
    sizes: &S,
    e: Expr,
) -> Result<Option<Spot>, NoMemory>
    ensures { (types : Table) → IfOk result (λ s. option_map spot_in s
        ≡ v.address_of (S.size sizes.now) (q.expr_of types e)) }
{
    let mut steps = Vec::new(alloc);
    let object = static_of(alloc, e, &mut steps)?;
    moved_by(sizes, start_of(object), steps)
}
