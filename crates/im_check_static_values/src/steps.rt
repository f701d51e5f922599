//! The steps from a static to a place in it: members and moves, of which chains may have any
//! number (C11 6.6p9).
ghost use Rattle.std.specs.Prelude.{◌≡◌, ◌+◌, ◌≤◌, ◌<◌, ℕ, pos, Option, Some, None, if◌then◌else◌};
ghost use Rattle.std.specs.Prelude.{IfOk, MatchResult};
ghost use Rattle.im_ctype.specs.Table.{Table};
ghost use Rattle.im_typed.specs.ProgramOf as q;
ghost use Rattle.im_typed.specs.declared.expression.Expr.{size-Expr};
ghost use Rattle.im_typed.specs.declared.expression.Place.{size-Place};
ghost use Rattle.im_check_items.specs.im_rules.StaticValues as v;
ghost use Rattle.im_check_items.specs.im_rules.Constants as c;
ghost use Rattle.im_check_static_values.specs.Spots as s;

use crate::constant::{constant_value, taken};
use im_num::NoMemory;
use im_store::Number;
use im_typed::{Expr, Place};
use std::alloc::Global;
use std::mem;

/// A step from a place in a static to another one.
#[derive(Clone, Copy, Debug)]
pub(crate) enum Step {
    /// So many elements of so many bytes, to lower offsets if `back`.
    Elements { bytes: u32, back: bool, by: Number },
    /// To a member, by its offset in bytes.
    Member(u32),
}

/// Where steps begin.
#[derive(Drop)]
pub(crate) enum Root {
    /// At a static's start.
    Static(u32),
    /// In no static.
    Nowhere,
    /// Where a pointer points to.
    Pointer(Expr),
}

/// A place out of where it stands, in which another one stays.
fn taken_place(place: &mut Place) -> Place
    ensures { result ≡ place.old }
{
    mem::replace(place, Place::Local(0))
}

/// The place of which one is a member, and the member's offset in bytes; of a place that is no
/// member where the steps to it begin.
fn whole_of(place: Place) -> Result<(Place, u32), Root>
    ensures { MatchResult result
        (λ r. ((types : Table) (size : ℕ → ℕ) → v.spot_of size (q.place_of types place)
        ≡ v.moved_spot size (v.spot_of size (q.place_of types r.0)) (Some (pos r.1)))
        × (size-Place r.0 < size-Place place))
        (λ root. ((types : Table) (size : ℕ → ℕ) → s.root_spot types size root
        ≡ v.spot_of size (q.place_of types place)) × (s.depth_over root ≤ size-Place place)) }
{
    let mut place = place;
    match &mut place {
        Place::Static(object) => Err(Root::Static(*object)),
        Place::Local(_) => Err(Root::Nowhere),
        Place::Target(pointer) => Err(Root::Pointer(taken(pointer))),
        Place::Member(whole, offset) => Ok((taken_place(whole), *offset)),
    }
}

/// What a place is a part of; the steps from there to it stand behind the others, the last one
/// first.
fn root_of(place: Place, steps: &mut Vec<Step>) -> Result<Root, NoMemory>
    ensures spot { (types : Table) (size : ℕ → ℕ) → IfOk result (λ root.
        s.stepped size steps.new.items (s.root_spot types size root)
        ≡ s.stepped size steps.old.items (v.spot_of size (q.place_of types place))) }
    ensures below { IfOk result (λ root. s.depth_over root ≤ size-Place place) }
{
    let mut rest = place;
    loop {
        match whole_of(rest) {
            Ok((whole, offset)) => {
                steps.push(Step::Member(offset))?;
                rest = whole;
            }
            Err(root) => return Ok(root),
        }
    }
}

/// Adds a move by a number of elements; whether it is a constant one.
fn add_move(
    alloc: Global,
    steps: &mut Vec<Step>,
    bytes: u32,
    back: bool,
    by: Expr,
) -> Result<bool, NoMemory>
    ensures { (types : Table) (size : ℕ → ℕ) (from : Option v.Spot) → IfOk result (λ is_constant.
        s.stepped size steps.new.items (if is_constant then from else None)
        ≡ s.stepped size steps.old.items (v.moved_spot size from
        (v.bytes_moved bytes back (c.constant_value (q.expr_of types by))))) }
{
    match constant_value(alloc, by)? {
        None => Ok(false),
        Some(by) => {
            steps.push(Step::Elements { bytes, back, by })?;
            Ok(true)
        }
    }
}

/// Where a pointer points to, if it is moved by constants alone.
fn pointed_at(is_constant: bool, pointer: Expr) -> Root
    ensures spot { (types : Table) (size : ℕ → ℕ) → s.root_spot types size result
        ≡ (if is_constant then v.address_of size (q.expr_of types pointer) else None) }
    ensures below { s.depth_over result ≤ size-Expr pointer + 1 }
{
    if is_constant {
        Root::Pointer(pointer)
    } else {
        Root::Nowhere
    }
}

/// Where the steps begin that lead to where an expression points, as far as one of them shows it.
fn pointer_root(alloc: Global, e: Expr, steps: &mut Vec<Step>) -> Result<Root, NoMemory>
    ensures spot { (types : Table) (size : ℕ → ℕ) → IfOk result (λ root.
        s.stepped size steps.new.items (s.root_spot types size root)
        ≡ s.stepped size steps.old.items (v.address_of size (q.expr_of types e))) }
    ensures below { IfOk result (λ root. s.depth_over root ≤ size-Expr e) }
{
    let mut e = e;
    match &mut e {
        Expr::Address(place) => root_of(taken_place(place), steps),
        Expr::Move {
            size,
            back,
            pointer,
            by,
        } => {
            let is_constant = add_move(alloc, steps, *size, *back, taken(by))?;
            Ok(pointed_at(is_constant, taken(pointer)))
        }
        Expr::MoveBy { size, by, pointer } => {
            let is_constant = add_move(alloc, steps, *size, false, taken(by))?;
            Ok(pointed_at(is_constant, taken(pointer)))
        }
        _ => Ok(Root::Nowhere),
    }
}

/// The static in which an expression points, if it is an address constant; the steps from its
/// start to there stand behind the others, the last one first.
pub(crate) fn static_of(
    alloc: Global,
    e: Expr,
    steps: &mut Vec<Step>,
) -> Result<Option<u32>, NoMemory>
    ensures { (types : Table) (size : ℕ → ℕ) → IfOk result (λ object.
        s.stepped size steps.new.items (s.beginning object)
        ≡ s.stepped size steps.old.items (v.address_of size (q.expr_of types e))) }
{
    let mut rest = e;
    loop {
        match pointer_root(alloc, rest, steps)? {
            Root::Static(object) => return Ok(Some(object)),
            Root::Nowhere => return Ok(None),
            Root::Pointer(pointer) => rest = pointer,
        }
    }
}
