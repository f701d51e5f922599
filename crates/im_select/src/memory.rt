ghost use Rattle.std.specs.Prelude.{◌≡◌, ◌<◌, ◌++◌, length, OnOk, IfOk};
ghost use Rattle.im_rv.specs.declared.format.Format.TheVariants.{Immediate, Store};
ghost use Rattle.im_rv.specs.Formats.{format_of};
ghost use Rattle.im_select_relation.specs.OperatorTables.{load_op, store_op};
ghost use Rattle.im_rv.specs.Lines.{code_lines};
ghost use Rattle.im_store.specs.Objects.{Slot};
ghost use Rattle.im_alloc_placed.specs.Operands.{IsHome, PlaceAtHome, PlaceExists};
ghost use Rattle.im_select.specs.Emitted.{static_code, place_code, place_base, place_number};
ghost use Rattle.im_select.specs.Emitted.{based_code, address_code, fetch_code, keep_code};
ghost use Rattle.im_select.specs.Emitted.{reload_code, spill_code};
ghost use Rattle.im_select.specs.Given.{given};
ghost use Rattle.im_select.specs.Places.{at_of, HasPlaces, IsDisplaced};

use crate::names::{Names, local_place, slot_place, static_place};
use crate::push::{push, push_numbered, storing, with_immediate};
use crate::words::{Displaced, high_part, low_part, push_displaced, register};
use im_block::Place;
use im_num::{Kind, NoMemory};
use im_rv::assembler::{addi, lui, lw, sw};
use im_rv::{Line, Op};

/// An address in the region of the statics.
fn push_static(lines: &mut Vec<Line>, address: u32) -> Result<Displaced, NoMemory>
    ensures grows { OnOk result (code_lines lines.new.items
        ≡ code_lines lines.old.items ++ static_code address) }
    ensures gives { IfOk result (λ d. IsDisplaced d 5 address) }
{
    let low = low_part(address);
    push(lines, lui(5, high_part(address)))?;
    Ok(Displaced { base: 5, low })
}

/// A place as an address; x5 may be used.
fn push_place(lines: &mut Vec<Line>, names: &Names, place: Place) -> Result<Displaced, NoMemory>
    requires places { HasPlaces (given names.now) }
    requires there { PlaceExists (length names.now.statics.now) names.now.function.now place }
    requires home { PlaceAtHome place }
    ensures grows { OnOk result (code_lines lines.new.items
        ≡ code_lines lines.old.items
        ++ place_code place (place_number (at_of (given names.now)) place)) }
    ensures gives { IfOk result (λ d. IsDisplaced d
        (place_base place (place_number (at_of (given names.now)) place))
        (place_number (at_of (given names.now)) place)) }
{
    match place {
        Place::Static { object, offset } => {
            push_static(lines, static_place(names, object) + offset)
        }
        Place::Local { object, offset } => {
            push_displaced(lines, 2, local_place(names, object) + offset)
        }
        Place::Through { pointer, offset } => push_displaced(lines, register(pointer), offset),
    }
}

/// The address of a place comes into a register, as that of a load or store and its offset.
fn push_based(lines: &mut Vec<Line>, names: &Names, to: u32, place: Place) -> Result<(), NoMemory>
    requires to { IsHome to }
    requires places { HasPlaces (given names.now) }
    requires there { PlaceExists (length names.now.statics.now) names.now.function.now place }
    requires home { PlaceAtHome place }
    ensures { OnOk result (code_lines lines.new.items
        ≡ code_lines lines.old.items
        ++ based_code to place (place_number (at_of (given names.now)) place)) }
{
    let at = push_place(lines, names, place)?;
    push(lines, addi(register(to), at.base, at.low))
}

/// The address of a place comes into a register: by one line, where it is a static's and a multiple
/// of 4096.
pub(crate) fn push_address(
    lines: &mut Vec<Line>,
    names: &Names,
    to: u32,
    place: Place,
) -> Result<(), NoMemory>
    requires to { IsHome to }
    requires places { HasPlaces (given names.now) }
    requires there { PlaceExists (length names.now.statics.now) names.now.function.now place }
    requires home { PlaceAtHome place }
    ensures { OnOk result (code_lines lines.new.items
        ≡ code_lines lines.old.items
        ++ address_code to place (place_number (at_of (given names.now)) place)) }
{
    if let Place::Static { object, offset } = place {
        let address = static_place(names, object) + offset;
        if address % 4096 == 0 {
            return push(lines, lui(register(to), high_part(address)));
        }
    }
    push_based(lines, names, to, place)
}

/// The load of a cell.
fn load_of(kind: Kind) -> Op
    ensures value { result ≡ load_op kind }
    ensures form { format_of result ≡ Immediate }
{
    match kind {
        Kind::I8 => Op::Lb,
        Kind::U8 => Op::Lbu,
        Kind::I16 => Op::Lh,
        Kind::U16 => Op::Lhu,
        Kind::I32 | Kind::U32 | Kind::Ptr => Op::Lw,
    }
}

/// The store of a cell.
fn store_of(kind: Kind) -> Op
    ensures value { result ≡ store_op kind }
    ensures form { format_of result ≡ Store }
{
    match kind {
        Kind::I8 | Kind::U8 => Op::Sb,
        Kind::I16 | Kind::U16 => Op::Sh,
        Kind::I32 | Kind::U32 | Kind::Ptr => Op::Sw,
    }
}

/// The value of a cell comes into a register.
pub(crate) fn push_read(
    lines: &mut Vec<Line>,
    names: &Names,
    to: u32,
    place: Place,
    kind: Kind,
    access: u64,
) -> Result<(), NoMemory>
    requires to { IsHome to }
    requires places { HasPlaces (given names.now) }
    requires there { PlaceExists (length names.now.statics.now) names.now.function.now place }
    requires home { PlaceAtHome place }
    ensures { OnOk result (code_lines lines.new.items
        ≡ code_lines lines.old.items
        ++ fetch_code to place kind access (place_number (at_of (given names.now)) place)) }
{
    let at = push_place(lines, names, place)?;
    push_numbered(
        lines,
        access,
        with_immediate(load_of(kind), register(to), at.base, at.low),
    )
}

/// A register's value goes into a cell.
pub(crate) fn push_write(
    lines: &mut Vec<Line>,
    names: &Names,
    place: Place,
    kind: Kind,
    from: u32,
    access: u64,
) -> Result<(), NoMemory>
    requires from { from < 32 }
    requires places { HasPlaces (given names.now) }
    requires there { PlaceExists (length names.now.statics.now) names.now.function.now place }
    requires home { PlaceAtHome place }
    ensures { OnOk result (code_lines lines.new.items
        ≡ code_lines lines.old.items
        ++ keep_code place kind from access (place_number (at_of (given names.now)) place)) }
{
    let at = push_place(lines, names, place)?;
    push_numbered(
        lines,
        access,
        storing(store_of(kind), at.base, register(from), at.low),
    )
}

/// A slot's value comes into a register.
pub(crate) fn push_reload(
    lines: &mut Vec<Line>,
    names: &Names,
    to: u32,
    slot: u32,
    access: u64,
) -> Result<(), NoMemory>
    requires to { IsHome to }
    requires places { HasPlaces (given names.now) }
    requires there { slot < names.now.function.now.slots }
    ensures { OnOk result (code_lines lines.new.items
        ≡ code_lines lines.old.items
        ++ reload_code to (at_of (given names.now) (Slot slot)) access) }
{
    let at = push_displaced(lines, 2, slot_place(names, slot))?;
    push_numbered(lines, access, lw(register(to), at.low, at.base))
}

/// A register's value goes into a slot.
pub(crate) fn push_spill(
    lines: &mut Vec<Line>,
    names: &Names,
    slot: u32,
    from: u32,
    access: u64,
) -> Result<(), NoMemory>
    requires from { IsHome from }
    requires places { HasPlaces (given names.now) }
    requires there { slot < names.now.function.now.slots }
    ensures { OnOk result (code_lines lines.new.items
        ≡ code_lines lines.old.items
        ++ spill_code (at_of (given names.now) (Slot slot)) from access) }
{
    let at = push_displaced(lines, 2, slot_place(names, slot))?;
    push_numbered(lines, access, sw(register(from), at.low, at.base))
}
