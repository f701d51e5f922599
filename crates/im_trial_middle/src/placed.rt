ghost use Rattle.std.specs.Prelude.{◌≡◌, ◌≢◌, ◌⊎◌, ◌<◌, ◌≤◌, true, length, All};
ghost use Rattle.im_num.specs.declared.kind.Kind.TheVariants.{Ptr};
ghost use Rattle.im_alloc_placed.specs.Operands.{HasObject, IsHome, IsPromoted};
ghost use Rattle.im_alloc_placed.specs.Operands.{PlaceAtHome, PlaceExists};
ghost use Rattle.im_alloc_placed.specs.Placed.{IsPlacedBlock, IsPlacedExit, IsPlacedLine};
ghost use Rattle.im_block.specs.Wellformed.{ExitThere};
ghost use Rattle.im_select.specs.Given.{given};
ghost use Rattle.im_select.specs.Places.{CallsBelow};
ghost use Rattle.im_select.specs.Selects.{IsClosedBlock};

use im_block::{Block, Exit, Function, Line, Place};
use im_num::Kind;
use im_select::Names;

/// The greatest offset of a place in its object, in bytes.
pub(crate) const GREATEST_OFFSET: u32 = 0x20_0000;

/// Sizes of elements, in bytes, are less.
pub(crate) const SIZES: u32 = 0x8000_0000;

/// The register of a function's first argument and of its result.
const FIRST: u32 = 10;

fn is_home(register: u32) -> bool
    ensures { result ≡ true → IsHome register }
{
    6 < register && register < 32
}

pub(crate) fn is_promoted(kind: Kind) -> bool
    ensures { result ≡ true → IsPromoted kind }
{
    match kind {
        Kind::I32 => true,
        Kind::U32 => true,
        Kind::I8 | Kind::U8 | Kind::I16 | Kind::U16 | Kind::Ptr => false,
    }
}

/// Whether values of a kind are compared: promoted ones and pointers.
pub(crate) fn is_compared(kind: Kind) -> bool
    ensures { result ≡ true → IsPromoted kind ⊎ (kind ≡ Ptr) }
{
    match kind {
        Kind::I32 => true,
        Kind::U32 => true,
        Kind::Ptr => true,
        Kind::I8 | Kind::U8 | Kind::I16 | Kind::U16 => false,
    }
}

pub(crate) fn is_integer(kind: Kind) -> bool
    ensures { result ≡ true → kind ≢ Ptr }
{
    match kind {
        Kind::I8 => true,
        Kind::U8 => true,
        Kind::I16 => true,
        Kind::U16 => true,
        Kind::I32 => true,
        Kind::U32 => true,
        Kind::Ptr => false,
    }
}

pub(crate) fn is_object(function: &Function, number: u32) -> bool
    ensures { result ≡ true → HasObject function.now number }
{
    let first = function.first_object;
    first <= number && ((number - first) as usize) < function.objects.len()
}

fn is_place(names: &Names, place: Place) -> bool
    ensures home { result ≡ true → PlaceAtHome place }
    ensures there { result ≡ true
        → PlaceExists (length names.now.statics.now) names.now.function.now place }
{
    match place {
        Place::Static { object, offset } => {
            (object as usize) < names.statics.len() && offset <= GREATEST_OFFSET
        }
        Place::Local { object, offset } => {
            is_object(names.function, object) && offset <= GREATEST_OFFSET
        }
        Place::Through { pointer, offset } => is_home(pointer) && offset <= GREATEST_OFFSET,
    }
}

fn are_homes(first: u32, second: u32) -> bool
    ensures { result ≡ true → IsHome first × IsHome second }
{
    is_home(first) && is_home(second)
}

fn are_three_homes(first: u32, second: u32, third: u32) -> bool
    ensures { result ≡ true → IsHome first × IsHome second × IsHome third }
{
    is_home(first) && is_home(second) && is_home(third)
}

fn is_converted(to: u32, kind: Kind, from: u32) -> bool
    ensures homes { result ≡ true → IsHome to × IsHome from }
    ensures kind { result ≡ true → kind ≢ Ptr }
{
    are_homes(to, from) && is_integer(kind)
}

fn is_unary(to: u32, kind: Kind, from: u32) -> bool
    ensures homes { result ≡ true → IsHome to × IsHome from }
    ensures kind { result ≡ true → IsPromoted kind }
{
    are_homes(to, from) && is_promoted(kind)
}

fn is_computed(to: u32, kind: Kind, left: u32, right: u32) -> bool
    ensures homes { result ≡ true → IsHome to × IsHome left × IsHome right }
    ensures kind { result ≡ true → IsPromoted kind }
{
    are_three_homes(to, left, right) && is_promoted(kind)
}

fn is_comparison(to: u32, kind: Kind, left: u32, right: u32) -> bool
    ensures homes { result ≡ true → IsHome to × IsHome left × IsHome right }
    ensures kind { result ≡ true → IsPromoted kind ⊎ (kind ≡ Ptr) }
{
    are_three_homes(to, left, right) && is_compared(kind)
}

/// A move by elements of so many bytes, or a distance in them.
fn is_sized(size: u32, to: u32, left: u32, right: u32) -> bool
    ensures homes { result ≡ true → IsHome to × IsHome left × IsHome right }
    ensures some { result ≡ true → 0 < size }
    ensures small { result ≡ true → size < 2147483648 }
{
    are_three_homes(to, left, right) && 0 < size && size < SIZES
}

fn is_access(names: &Names, register: u32, place: Place) -> bool
    ensures home { result ≡ true → IsHome register }
    ensures place { result ≡ true → PlaceAtHome place }
    ensures there { result ≡ true
        → PlaceExists (length names.now.statics.now) names.now.function.now place }
{
    is_home(register) && is_place(names, place)
}

fn is_slotted(names: &Names, register: u32, slot: u32) -> bool
    ensures home { result ≡ true → IsHome register }
    ensures slot { result ≡ true → slot < names.now.function.now.slots }
{
    is_home(register) && slot < names.function.slots
}

fn is_call(names: &Names, to: u32, function: u32, first: u32, count: u32) -> bool
    ensures to { result ≡ true → to ≡ 10 }
    ensures first { result ≡ true → first ≡ 10 }
    ensures count { result ≡ true → count ≤ 8 }
    ensures called { result ≡ true → function < names.now.functions }
{
    to == FIRST && first == FIRST && count <= 8 && function < names.functions
}

/// Whether a line is one of placed code, and the function that it calls is there; no call of a
/// service is.
fn is_line(names: &Names, line: &Line) -> bool
    ensures placed { result ≡ true
        → IsPlacedLine (length names.now.statics.now) names.now.function.now line.now }
    ensures calls { result ≡ true → CallsBelow names.now.functions line.now }
{
    match *line {
        Line::Put { to, .. } => is_home(to),
        Line::PutNull { to } => is_home(to),
        Line::Copy { to, from } => are_homes(to, from),
        Line::Convert { to, kind, from } => is_converted(to, kind, from),
        Line::Unary { to, kind, from, .. } => is_unary(to, kind, from),
        Line::Not { to, from } => are_homes(to, from),
        Line::Compute {
            to,
            kind,
            left,
            right,
            ..
        } => is_computed(to, kind, left, right),
        Line::Compare {
            to,
            kind,
            left,
            right,
            ..
        } => is_comparison(to, kind, left, right),
        Line::Move {
            to,
            size,
            pointer,
            by,
            ..
        } => is_sized(size, to, pointer, by),
        Line::Distance {
            to,
            size,
            left,
            right,
        } => is_sized(size, to, left, right),
        Line::Address { to, place } => is_access(names, to, place),
        Line::Read { to, place, .. } => is_access(names, to, place),
        Line::Write { place, from, .. } => is_access(names, from, place),
        Line::Reload { to, slot, .. } => is_slotted(names, to, slot),
        Line::Spill { slot, from, .. } => is_slotted(names, from, slot),
        Line::Cut(_) => true,
        Line::Call {
            to,
            function,
            first,
            count,
        } => is_call(names, to, function, first, count),
        Line::Serve { .. } => false,
    }
}

fn are_lines(names: &Names, lines: &[Line]) -> bool
    ensures { result ≡ true → All
        (IsPlacedLine (length names.now.statics.now) names.now.function.now) lines.now
        × All (CallsBelow names.now.functions) lines.now }
{
    for line in lines {
        if !is_line(names, line) {
            return false;
        }
    }
    true
}

fn is_exit(names: &Names, exit: Exit) -> bool
    ensures placed { result ≡ true → IsPlacedExit exit }
    ensures there { result ≡ true
        → ExitThere (length names.now.function.now.blocks.items) exit }
{
    let count = names.function.blocks.len();
    match exit {
        Exit::Jump(to) => (to as usize) < count,
        Exit::Turn(to) => (to as usize) < count,
        Exit::Branch { on, holds, fails } => {
            is_home(on) && (holds as usize) < count && (fails as usize) < count
        }
        Exit::Return(None) => true,
        Exit::Return(Some(from)) => from == FIRST,
    }
}

fn is_block(names: &Names, block: &Block) -> bool
    ensures placed { result ≡ true
        → IsPlacedBlock (length names.now.statics.now) names.now.function.now block.now }
    ensures closed { result ≡ true → IsClosedBlock (given names.now) block.now }
{
    are_lines(names, &block.lines) && is_exit(names, block.exit)
}

/// Whether blocks are those of placed code that selection takes, with what the names in them stand
/// for.
pub(crate) fn are_blocks(names: &Names, blocks: &[Block]) -> bool
    ensures { result ≡ true → All
        (IsPlacedBlock (length names.now.statics.now) names.now.function.now) blocks.now
        × All (IsClosedBlock (given names.now)) blocks.now }
{
    for block in blocks {
        if !is_block(names, block) {
            return false;
        }
    }
    true
}
