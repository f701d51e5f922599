ghost use Rattle.std.specs.Prelude.{◌≡◌, ◌+◌, ◌<◌, ◌≤◌, ℕ, IfOk, length, slice_get};
ghost use Rattle.im_alias.specs.Ascending.{IsWithin};
ghost use Rattle.im_alias.specs.Scan.{CanPass, CanTake, IsReached, FlowedBlock, FlowedBlocks};
ghost use Rattle.im_alias.specs.Scan.{FlowedUnit};
ghost use Rattle.im_alias.specs.Sets.{Flowed, IsBlockOf, IsCode, IsPart, StaticsFit, row_sets};
ghost use Rattle.im_alias.specs.Sets.{width};
ghost use Rattle.im_alias.specs.PointsAt.{ExitFits, LineFits, sets_at};
ghost use Rattle.im_block.specs.Sections.{Has};
ghost use Rattle.im_block.specs.Wellformed.{ExitWithin, PlaceWithin, accesses_of_blocks};
ghost use Rattle.im_block_laws.specs.PointsTo.{ConstantIn, ConstantsIn, PlaceHas, Sub};

use crate::found::Found;
use crate::set::{ObjectSet, either};
use crate::spot::pass;
use crate::table::{Owner, RegisterSets, Table};
use im_block::{Block, Constant, Exit, Function, Line, Place, Unit};
use im_num::NoMemory;
use std::alloc::Global;

/// One sweep over the unit: each line passes on what it may, and each access gets a tag. Whether a
/// set was changed.
pub fn sweep(
    alloc: Global,
    unit: &Unit,
    table: &mut Table,
    found: &mut Found,
) -> Result<bool, NoMemory>
    requires code { IsCode unit.now }
    requires part { IsPart unit.now table.old }
    ensures { IfOk result (λ changed.
        FlowedUnit unit.now table.old table.new found.old found.new changed) }
{
    let mut changed = flow_statics(alloc, unit, table)?;
    for (number, function) in unit.functions.iter().enumerate() {
        let more = flow_function(alloc, unit, table, found, number, function)?;
        changed = either(changed, more);
    }
    Ok(changed)
}

fn flow_statics(alloc: Global, unit: &Unit, table: &mut Table) -> Result<bool, NoMemory>
    requires { length unit.now.statics.items ≤ length table.old.objects.items }
    ensures { IfOk result (λ changed.
        Flowed (StaticsFit (length unit.now.statics.items) unit.now) table.old table.new changed) }
{
    let mut changed = false;
    for (number, each) in unit.statics.iter().enumerate() {
        let more = flow_values(alloc, table, number, &each.values)?;
        changed = either(changed, more);
    }
    Ok(changed)
}

/// What a static holds at first.
fn flow_values(
    alloc: Global,
    table: &mut Table,
    number: usize,
    values: &[Constant],
) -> Result<bool, NoMemory>
    requires { number < length table.old.objects.items }
    ensures { IfOk result (λ changed.
        Flowed (λ p. ConstantsIn (p.object number) values.now) table.old table.new changed) }
{
    let mut changed = false;
    for value in values {
        let more = flow_value(alloc, table, number, value)?;
        changed = either(changed, more);
    }
    Ok(changed)
}

fn flow_value(
    alloc: Global,
    table: &mut Table,
    number: usize,
    value: &Constant,
) -> Result<bool, NoMemory>
    requires { number < length table.old.objects.items }
    ensures { IfOk result (λ changed.
        Flowed (λ p. ConstantIn (p.object number) value.now) table.old table.new changed) }
{
    match value {
        Constant::Inside { object, .. } => {
            let one = ObjectSet::one(alloc, *object)?;
            table.add_all(Owner::Object(number), &one)
        }
        _ => Ok(false),
    }
}

fn flow_function(
    alloc: Global,
    unit: &Unit,
    table: &mut Table,
    found: &mut Found,
    number: usize,
    function: &Function,
) -> Result<bool, NoMemory>
    requires code { IsCode unit.now }
    requires part { IsPart unit.now table.old }
    requires there { slice_get unit.now.functions.items number ≡ Some function.now }
    ensures { IfOk result (λ changed.
        FlowedBlocks (length function.now.blocks.items) unit.now number function.now.blocks.items
        (accesses_of_blocks function.now.blocks.items) table.old table.new found.old found.new
        changed) }
{
    let mut changed = false;
    for block in &function.blocks {
        let more = flow_block(alloc, unit, table, found, number, function, block)?;
        changed = either(changed, more);
    }
    Ok(changed)
}

fn flow_block(
    alloc: Global,
    unit: &Unit,
    table: &mut Table,
    found: &mut Found,
    number: usize,
    function: &Function,
    block: &Block,
) -> Result<bool, NoMemory>
    requires code { IsCode unit.now }
    requires part { IsPart unit.now table.old }
    requires there { IsBlockOf unit.now number function.now block.now }
    ensures { IfOk result (λ changed.
        FlowedBlock unit.now number block.now table.old table.new found.old found.new changed) }
{
    let mut spot = table.registers[number].copy(alloc)?;
    let mut changed = false;
    for line in &block.lines {
        let line = *line;
        found.tag(alloc, &spot, line)?;
        let more = flow_line(unit, table, &spot, line)?;
        changed = either(changed, more);
        pass(alloc, table, &mut spot, line)?;
    }
    let more = flow_exit(table, &spot, number, block.exit)?;
    Ok(either(changed, more))
}

/// What a line writes, or passes as arguments.
fn flow_line(
    unit: &Unit,
    table: &mut Table,
    spot: &RegisterSets,
    line: Line,
) -> Result<bool, NoMemory>
    requires can { CanPass table.old spot.now line }
    requires takes { CanTake unit.now.functions.items table.old line }
    ensures { IfOk result (λ changed.
        Flowed (λ p. LineFits p unit.now.functions.items (row_sets spot.now) 0 line) table.old
        table.new changed) }
{
    match line {
        Line::Write { place, from, .. } => flow_write(table, spot, place, from),
        Line::Call {
            function,
            first,
            count,
            ..
        } => {
            let callee = function as usize;
            let to = unit.functions[callee].first_parameter;
            flow_arguments(table, spot, callee, to, first, count)
        }
        _ => Ok(false),
    }
}

fn flow_write(
    table: &mut Table,
    spot: &RegisterSets,
    place: Place,
    from: u32,
) -> Result<bool, NoMemory>
    requires within { PlaceWithin (length spot.now.sets.items) place }
    requires from_within { from < length spot.now.sets.items }
    requires reached { IsReached (length table.old.objects.items) (row_sets spot.now) place }
    ensures { IfOk result (λ changed.
        Flowed (λ p. (n : ℕ) → PlaceHas (sets_at p (row_sets spot.now)) 0 place n → Sub (row_sets
        spot.now from) (p.object n)) table.old table.new changed) }
{
    let from = &spot.sets[from as usize];
    match place {
        Place::Static { object, .. } | Place::Local { object, .. } => {
            table.add_all(Owner::Object(object as usize), from)
        }
        Place::Through { pointer, .. } => flow_into(table, &spot.sets[pointer as usize], from),
    }
}

/// A value may be written into any of some objects.
fn flow_into(table: &mut Table, objects: &ObjectSet, from: &ObjectSet) -> Result<bool, NoMemory>
    requires { IsWithin (length table.old.objects.items) objects.now.members.items }
    ensures { IfOk result (λ changed.
        Flowed (λ p. (n : ℕ) → Has objects.now.members.items n → Sub from.now.members.items
        (p.object n)) table.old table.new changed) }
{
    let mut changed = false;
    if from.members.is_empty() {
        return Ok(changed);
    }
    for object in &objects.members {
        let more = table.add_all(Owner::Object(*object as usize), from)?;
        changed = either(changed, more);
    }
    Ok(changed)
}

/// Arguments from one register on go to parameters from another on.
fn flow_arguments(
    table: &mut Table,
    spot: &RegisterSets,
    callee: usize,
    to: u32,
    first: u32,
    count: u32,
) -> Result<bool, NoMemory>
    requires given { first + count ≤ length spot.now.sets.items }
    requires taken { to + count ≤ width (slice_get table.old.registers.items callee) }
    ensures { IfOk result (λ changed.
        Flowed (λ p. (k : ℕ) → k < count → Sub (row_sets spot.now (first + k)) (p.register callee
        (to + k))) table.old table.new changed) }
{
    let mut changed = false;
    for k in 0..count {
        let owner = Owner::Register {
            function: callee,
            register: to as usize + k as usize,
        };
        let more = table.add_all(owner, &spot.sets[first as usize + k as usize])?;
        changed = either(changed, more);
    }
    Ok(changed)
}

fn flow_exit(
    table: &mut Table,
    spot: &RegisterSets,
    number: usize,
    exit: Exit,
) -> Result<bool, NoMemory>
    requires within { ExitWithin (length spot.now.sets.items) exit }
    requires there { length spot.now.sets.items ≤ width (slice_get table.old.registers.items
        number) }
    requires returned { number < length table.old.returned.items }
    ensures { IfOk result (λ changed.
        Flowed (λ p. ExitFits p (row_sets spot.now) number exit) table.old table.new changed) }
{
    match exit {
        Exit::Jump(_) | Exit::Turn(_) | Exit::Branch { .. } => flow_registers(table, spot, number),
        Exit::Return(Some(from)) => {
            table.add_all(Owner::Returned(number), &spot.sets[from as usize])
        }
        Exit::Return(None) => Ok(false),
    }
}

/// What registers have at a block's end they may have where the next one begins.
fn flow_registers(table: &mut Table, spot: &RegisterSets, number: usize) -> Result<bool, NoMemory>
    requires { length spot.now.sets.items ≤ width (slice_get table.old.registers.items number) }
    ensures { IfOk result (λ changed.
        Flowed (λ p. (r : ℕ) → Sub (row_sets spot.now r) (p.register number r)) table.old
        table.new changed) }
{
    let mut changed = false;
    for (register, set) in spot.sets.iter().enumerate() {
        let owner = Owner::Register {
            function: number,
            register,
        };
        let more = table.add_all(owner, set)?;
        changed = either(changed, more);
    }
    Ok(changed)
}
