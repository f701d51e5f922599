ghost use Rattle.std.specs.Prelude.{◌≡◌, ◌≢◌, ◌⊎◌, ◌<◌, ◌≤◌, ◌+◌, ◌++◌, [], true, length, All};
ghost use Rattle.im_num.specs.declared.kind.Kind.TheVariants.{Ptr};
ghost use Rattle.im_serve.specs.Services.{row, IsNullary, IsUnary};
ghost use Rattle.im_block.specs.Wellformed.{accesses_of_blocks};
ghost use Rattle.im_block.specs.Wellformed.{ExitThere, ExitWithin, LineWithin, PlaceWithin};
ghost use Rattle.im_alloc_placed.specs.Operands.{IsPromoted, PlaceExists};
ghost use Rattle.im_alloc_placed.specs.Placeable.{IsPlaceableLine};
ghost use Rattle.im_trial_middle.specs.Unplaced.{CallsSecond, IsOpenBlock, Rises};

use crate::numbers::accesses_rise;
use crate::placed::{GREATEST_OFFSET, SIZES, is_compared, is_integer, is_object, is_promoted};
use im_block::{Block, Exit, Function, Line, Place};
use im_num::Kind;
use im_serve::Service;

/// Registers of block code are less.
const REGISTERS: u32 = 32;

fn is_register(register: u32) -> bool
    ensures { result ≡ true → register < 32 }
{
    register < REGISTERS
}

fn are_registers(first: u32, second: u32) -> bool
    ensures { result ≡ true → (first < 32) × (second < 32) }
{
    is_register(first) && is_register(second)
}

fn are_three_registers(first: u32, second: u32, third: u32) -> bool
    ensures { result ≡ true → (first < 32) × (second < 32) × (third < 32) }
{
    is_register(first) && is_register(second) && is_register(third)
}

/// Whether a place is one of the function's object or behind a register: there is no static.
fn is_place(function: &Function, place: Place) -> bool
    ensures within { result ≡ true → PlaceWithin 32 place }
    ensures there { result ≡ true → PlaceExists 0 function.now place }
{
    match place {
        Place::Static { .. } => false,
        Place::Local { object, offset } => {
            is_object(function, object) && offset <= GREATEST_OFFSET
        }
        Place::Through { pointer, offset } => is_register(pointer) && offset <= GREATEST_OFFSET,
    }
}

fn is_access(function: &Function, register: u32, place: Place) -> bool
    ensures register { result ≡ true → register < 32 }
    ensures within { result ≡ true → PlaceWithin 32 place }
    ensures there { result ≡ true → PlaceExists 0 function.now place }
{
    is_register(register) && is_place(function, place)
}

fn is_conversion(to: u32, kind: Kind, from: u32) -> bool
    ensures within { result ≡ true → (to < 32) × (from < 32) }
    ensures kind { result ≡ true → kind ≢ Ptr }
{
    are_registers(to, from) && is_integer(kind)
}

fn is_unary(to: u32, kind: Kind, from: u32) -> bool
    ensures within { result ≡ true → (to < 32) × (from < 32) }
    ensures kind { result ≡ true → IsPromoted kind }
{
    are_registers(to, from) && is_promoted(kind)
}

fn is_computation(to: u32, kind: Kind, left: u32, right: u32) -> bool
    ensures within { result ≡ true → (to < 32) × (left < 32) × (right < 32) }
    ensures kind { result ≡ true → IsPromoted kind }
{
    are_three_registers(to, left, right) && is_promoted(kind)
}

fn is_comparison(to: u32, kind: Kind, left: u32, right: u32) -> bool
    ensures within { result ≡ true → (to < 32) × (left < 32) × (right < 32) }
    ensures kind { result ≡ true → IsPromoted kind ⊎ (kind ≡ Ptr) }
{
    are_three_registers(to, left, right) && is_compared(kind)
}

/// A move by elements of so many bytes, or a distance in them.
fn is_sized(size: u32, to: u32, left: u32, right: u32) -> bool
    ensures within { result ≡ true → (to < 32) × (left < 32) × (right < 32) }
    ensures some { result ≡ true → 0 < size }
    ensures small { result ≡ true → size < 2147483648 }
{
    are_three_registers(to, left, right) && 0 < size && size < SIZES
}

/// A call of function 1, which takes two arguments.
fn is_call(to: u32, function: u32, first: u32, count: u32) -> bool
    ensures to { result ≡ true → to < 32 }
    ensures first { result ≡ true → first + count ≤ 32 }
    ensures few { result ≡ true → count ≤ 8 }
    ensures second { result ≡ true → (function ≡ 1) × (count ≡ 2) }
{
    is_register(to) && function == 1 && count == 2 && first < REGISTERS - 1
}

fn takes_none(service: Service) -> bool
    ensures { result ≡ true → IsNullary (row service).parameter }
{
    match service {
        Service::Getchar => true,
        Service::Putchar => false,
    }
}

fn takes_one(service: Service) -> bool
    ensures { result ≡ true → IsUnary (row service).parameter }
{
    match service {
        Service::Getchar => false,
        Service::Putchar => true,
    }
}

fn is_service(to: u32, service: Service) -> bool
    ensures to { result ≡ true → to < 32 }
    ensures nullary { result ≡ true → IsNullary (row service).parameter }
{
    is_register(to) && takes_none(service)
}

fn is_service_of(to: u32, service: Service, from: u32) -> bool
    ensures within { result ≡ true → (to < 32) × (from < 32) }
    ensures unary { result ≡ true → IsUnary (row service).parameter }
{
    are_registers(to, from) && takes_one(service)
}

/// Whether a line is one of block code that placing takes, in the function of a row.
fn is_line(function: &Function, line: &Line) -> bool
    ensures within { result ≡ true → LineWithin 32 line.now }
    ensures calls { result ≡ true → CallsSecond line.now }
    ensures placeable { result ≡ true → IsPlaceableLine 0 function.now line.now }
{
    match *line {
        Line::Put { to, .. } => is_register(to),
        Line::PutNull { to } => is_register(to),
        Line::Copy { to, from } => are_registers(to, from),
        Line::Convert { to, kind, from } => is_conversion(to, kind, from),
        Line::Unary { to, kind, from, .. } => is_unary(to, kind, from),
        Line::Not { to, from } => are_registers(to, from),
        Line::Compute {
            to,
            kind,
            left,
            right,
            ..
        } => is_computation(to, kind, left, right),
        Line::Compare {
            to,
            kind,
            left,
            right,
            ..
        } => is_comparison(to, kind, left, right),
        Line::Move {
            to,
            size,
            pointer,
            by,
            ..
        } => is_sized(size, to, pointer, by),
        Line::Distance {
            to,
            size,
            left,
            right,
        } => is_sized(size, to, left, right),
        Line::Address { to, place } => is_access(function, to, place),
        Line::Read { to, place, .. } => is_access(function, to, place),
        Line::Write { place, from, .. } => is_access(function, from, place),
        Line::Reload { .. } | Line::Spill { .. } => false,
        Line::Cut(_) => true,
        Line::Call {
            to,
            function,
            first,
            count,
        } => is_call(to, function, first, count),
        Line::Serve {
            to,
            service,
            from: None,
        } => is_service(to, service),
        Line::Serve {
            to,
            service,
            from: Some(from),
        } => is_service_of(to, service, from),
    }
}

fn are_lines(function: &Function, lines: &[Line]) -> bool
    ensures within { result ≡ true → All (LineWithin 32) lines.now }
    ensures calls { result ≡ true → All CallsSecond lines.now }
    ensures placeable { result ≡ true → All (IsPlaceableLine 0 function.now) lines.now }
{
    for line in lines {
        if !is_line(function, line) {
            return false;
        }
    }
    true
}

fn is_exit(function: &Function, exit: Exit) -> bool
    ensures within { result ≡ true → ExitWithin 32 exit }
    ensures there { result ≡ true → ExitThere (length function.now.blocks.items) exit }
{
    let count = function.blocks.len();
    match exit {
        Exit::Jump(to) => (to as usize) < count,
        Exit::Turn(to) => (to as usize) < count,
        Exit::Branch { on, holds, fails } => {
            is_register(on) && (holds as usize) < count && (fails as usize) < count
        }
        Exit::Return(None) => true,
        Exit::Return(Some(from)) => is_register(from),
    }
}

fn is_block(function: &Function, block: &Block) -> bool
    ensures { result ≡ true → IsOpenBlock function.now block.now }
{
    are_lines(function, &block.lines) && is_exit(function, block.exit)
}

fn are_open_blocks(function: &Function, blocks: &[Block]) -> bool
    ensures { result ≡ true → All (IsOpenBlock function.now) blocks.now }
{
    for block in blocks {
        if !is_block(function, block) {
            return false;
        }
    }
    true
}

/// Whether the blocks of a row's function are ones of block code that placing takes, and the
/// numbers of their accesses rise.
pub(crate) fn is_open(function: &Function) -> bool
    ensures blocks { result ≡ true → All (IsOpenBlock function.now) function.now.blocks.items }
    ensures accesses { result ≡ true
        → Rises 0 (accesses_of_blocks function.now.blocks.items ++ []) }
{
    are_open_blocks(function, &function.blocks) && accesses_rise(&function.blocks)
}
