ghost use Rattle.std.specs.Prelude.{◌≡◌};
ghost use Rattle.im_alloc_relation.specs.Homes.{on_place};
ghost use Rattle.im_alloc_intervals.specs.Homes.{home_at};
ghost use Rattle.im_alloc.specs.Parts.{pointer_in, first_operand, second_operand, target};
ghost use Rattle.im_alloc.specs.Parts.{values_in, operators_in, pointers_in, places_in};
ghost use Rattle.im_alloc.specs.Parts.{in_registers};

use crate::homes::register_at;
use im_alloc_intervals::Home;
use im_block::{Line, Place};

fn pointer_of(place: Place) -> Option<u32>
    ensures { result ≡ pointer_in place }
{
    match place {
        Place::Static { .. } | Place::Local { .. } => None,
        Place::Through { pointer, .. } => Some(pointer),
    }
}

/// The register that is brought into x7, if a line has one.
pub(crate) fn first_of(line: Line) -> Option<u32>
    ensures { result ≡ first_operand line }
{
    match line {
        Line::Copy { from, .. }
        | Line::Convert { from, .. }
        | Line::Unary { from, .. }
        | Line::Not { from, .. } => Some(from),
        Line::Compute { left, .. } | Line::Compare { left, .. } | Line::Distance { left, .. } => {
            Some(left)
        }
        Line::Move { pointer, .. } => Some(pointer),
        Line::Address { place, .. } | Line::Read { place, .. } | Line::Write { place, .. } => {
            pointer_of(place)
        }
        _ => None,
    }
}

/// The register that is brought into x8, if a line has one.
pub(crate) fn second_of(line: Line) -> Option<u32>
    ensures { result ≡ second_operand line }
{
    match line {
        Line::Compute { right, .. } | Line::Compare { right, .. } | Line::Distance { right, .. } =>
            { Some(right) }
        Line::Move { by, .. } => Some(by),
        Line::Write { from, .. } => Some(from),
        _ => None,
    }
}

/// The register that a line sets, if it does. Calls have their own way.
pub(crate) fn target_of(line: Line) -> Option<u32>
    ensures { result ≡ target line }
{
    match line {
        Line::Put { to, .. }
        | Line::PutNull { to }
        | Line::Copy { to, .. }
        | Line::Convert { to, .. }
        | Line::Unary { to, .. }
        | Line::Not { to, .. }
        | Line::Compute { to, .. }
        | Line::Compare { to, .. }
        | Line::Move { to, .. }
        | Line::Distance { to, .. }
        | Line::Address { to, .. }
        | Line::Read { to, .. } => Some(to),
        _ => None,
    }
}

fn place_on(homes: &[Home], place: Place) -> Place
    ensures { result ≡ on_place (home_at homes.now) place }
{
    match place {
        Place::Static { .. } | Place::Local { .. } => place,
        Place::Through { pointer, offset } => Place::Through {
            pointer: register_at(homes, pointer, 7),
            offset,
        },
    }
}

fn values_on(homes: &[Home], line: Line) -> Line
    ensures { result ≡ values_in (home_at homes.now) line }
{
    match line {
        Line::Put { to, number } => Line::Put {
            to: register_at(homes, to, 7),
            number,
        },
        Line::PutNull { to } => Line::PutNull {
            to: register_at(homes, to, 7),
        },
        Line::Copy { to, from } => Line::Copy {
            to: register_at(homes, to, 7),
            from: register_at(homes, from, 7),
        },
        Line::Convert { to, kind, from } => Line::Convert {
            to: register_at(homes, to, 7),
            kind,
            from: register_at(homes, from, 7),
        },
        Line::Not { to, from } => Line::Not {
            to: register_at(homes, to, 7),
            from: register_at(homes, from, 7),
        },
        _ => line,
    }
}

fn operators_on(homes: &[Home], line: Line) -> Line
    ensures { result ≡ operators_in (home_at homes.now) line }
{
    match line {
        Line::Unary { to, op, kind, from } => Line::Unary {
            to: register_at(homes, to, 7),
            op,
            kind,
            from: register_at(homes, from, 7),
        },
        Line::Compute {
            to,
            op,
            kind,
            left,
            right,
        } => Line::Compute {
            to: register_at(homes, to, 7),
            op,
            kind,
            left: register_at(homes, left, 7),
            right: register_at(homes, right, 8),
        },
        Line::Compare {
            to,
            op,
            kind,
            left,
            right,
        } => Line::Compare {
            to: register_at(homes, to, 7),
            op,
            kind,
            left: register_at(homes, left, 7),
            right: register_at(homes, right, 8),
        },
        _ => line,
    }
}

fn pointers_on(homes: &[Home], line: Line) -> Line
    ensures { result ≡ pointers_in (home_at homes.now) line }
{
    match line {
        Line::Move {
            to,
            size,
            back,
            pointer,
            by,
        } => Line::Move {
            to: register_at(homes, to, 7),
            size,
            back,
            pointer: register_at(homes, pointer, 7),
            by: register_at(homes, by, 8),
        },
        Line::Distance {
            to,
            size,
            left,
            right,
        } => Line::Distance {
            to: register_at(homes, to, 7),
            size,
            left: register_at(homes, left, 7),
            right: register_at(homes, right, 8),
        },
        _ => line,
    }
}

fn places_on(homes: &[Home], line: Line) -> Line
    ensures { result ≡ places_in (home_at homes.now) line }
{
    match line {
        Line::Address { to, place } => Line::Address {
            to: register_at(homes, to, 7),
            place: place_on(homes, place),
        },
        Line::Read {
            to,
            place,
            kind,
            access,
        } => Line::Read {
            to: register_at(homes, to, 7),
            place: place_on(homes, place),
            kind,
            access,
        },
        Line::Write {
            place,
            kind,
            from,
            access,
        } => Line::Write {
            place: place_on(homes, place),
            kind,
            from: register_at(homes, from, 8),
            access,
        },
        _ => line,
    }
}

/// A line that is no call, over the registers in which its values are.
pub(crate) fn in_registers(homes: &[Home], line: Line) -> Line
    ensures { result ≡ in_registers (home_at homes.now) line }
{
    let line = values_on(homes, line);
    let line = operators_on(homes, line);
    let line = pointers_on(homes, line);
    places_on(homes, line)
}
