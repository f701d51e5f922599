//! The first values of a static's cells (C11 6.7.9p4, p10).
ghost use Rattle.std.specs.Prelude.{◌≡◌, ℕ, map, nat_eq, None, IfOk, IfErr, OnOk};
ghost use Rattle.std.specs.Option.{option_map};
ghost use Rattle.std.specs.HashMap.{get};
ghost use Rattle.im_ctype.specs.declared.cell.Cell as rc;
ghost use Rattle.im_ctype.specs.Table.{Table, structs_of};
ghost use Rattle.im_typed.specs.ProgramOf as q;
ghost use Rattle.im_check_items.specs.im_rules.Initialisers.{pieces_of};
ghost use Rattle.im_check_items.specs.im_rules.StaticValues as v;
ghost use Rattle.im_check_items.specs.im_rules.TypedUnit.{cells_in, values_or_zero};
ghost use Rattle.im_types.specs.Shape.{type_of};
ghost use Rattle.im_check_items.specs.Shape.{items_in};
ghost use Rattle.im_check_static_values.specs.Firsts.{AreConstant, IsUnfit};
ghost use Rattle.im_check_static_values.specs.Given.{given_at, given_by, given_to, first_or};

use crate::cells::cells_of;
use crate::given::{Given, all_given};
use crate::sizes::Sizes;
use im_check_items::Item;
use im_check_stop::Stop;
use im_ctype::{Cell, TypeTable};
use im_num::{Kind, NoMemory};
use im_typed::Constant;
use im_types::Type;
use std::alloc::Global;
use std::collections::HashMap;

/// Zero, or null of a pointer.
fn zero_of(kind: Kind) -> Constant
    ensures { (types : Table) → q.first_of types result ≡ v.zero_of kind }
{
    match kind {
        Kind::Ptr => Constant::Null,
        Kind::I8 | Kind::U8 | Kind::I16 | Kind::U16 | Kind::I32 | Kind::U32 => Constant::Number(0),
    }
}

/// Keeps a value, unless there is one at its offset.
fn keep(found: &mut HashMap<u64, Constant>, one: Given) -> Result<(), NoMemory>
    ensures { (types : Table) → OnOk result ((k : ℕ)
        → option_map (q.first_of types) (get nat_eq found.new k)
        ≡ first_or (option_map (q.first_of types) (get nat_eq found.old k))
        (given_by types k one)) }
{
    if found.get(&one.offset).is_none() {
        found.insert(one.offset, one.value)?;
    }
    Ok(())
}

/// The first of the values that are given at each offset.
fn by_offset(alloc: Global, given: &[Given]) -> Result<HashMap<u64, Constant>, NoMemory>
    ensures { (types : Table) → IfOk result (λ m. (k : ℕ)
        → option_map (q.first_of types) (get nat_eq m k) ≡ given_at types k given.now) }
{
    let mut found = HashMap::new(alloc);
    for one in given {
        keep(&mut found, *one)?;
    }
    Ok(found)
}

/// The value of a cell: zero or null where nothing is given.
fn value_of(cell: Cell, found: &HashMap<u64, Constant>) -> Constant
    ensures { (types : Table) → q.first_of types result ≡ v.value_or (v.zero_of cell.kind)
        (option_map (q.first_of types) (get nat_eq found.now cell.offset)) }
{
    match found.get(&cell.offset) {
        Some(value) => *value,
        None => zero_of(cell.kind),
    }
}

/// The values of cells, by what is given.
fn values_of(
    alloc: Global,
    cells: &[Cell],
    found: &HashMap<u64, Constant>,
) -> Result<Vec<Constant>, NoMemory>
    ensures { (types : Table) → IfOk result (λ vs. map (q.first_of types) vs.items
        ≡ map {A = rc.Cell} (λ c. v.value_or (v.zero_of c.kind)
        (option_map (q.first_of types) (get nat_eq found.now c.offset))) cells.now) }
{
    let mut values = Vec::new(alloc);
    for cell in cells {
        values.push(value_of(*cell, found))?;
    }
    Ok(values)
}

/// The values of cells, by what is given: zero or null where nothing is.
fn placed(alloc: Global, cells: &[Cell], given: &[Given]) -> Result<Vec<Constant>, NoMemory>
    ensures { (types : Table) → IfOk result (λ vs. map (q.first_of types) vs.items
        ≡ map {A = rc.Cell} (given_to types given.now) cells.now) }
{
    let found = by_offset(alloc, given)?;
    values_of(alloc, cells, &found)
}

/// The first values of the cells of a static of that type, given what its initialiser's items are
/// (C11 6.7.9p4, p10); or rule 14 at the first token of an item that is no constant.
pub fn first_values<S: Sizes>(
    alloc: Global,
    sizes: &S,
    table: &TypeTable,
    ty: &Type,
    items: Vec<Item>,
) -> Result<Vec<Constant>, Stop>
    ensures constants { IfOk result (λ vs. AreConstant (S.size sizes.now) (structs_of table.now)
        (items_in table.now items.entry.items)) }
    ensures values { IfOk result (λ vs. map (q.first_of table.now) vs.items
        ≡ v.cell_values (S.size sizes.now) (cells_in (structs_of table.now) (type_of ty.now))
        (pieces_of (structs_of table.now) (items_in table.now items.entry.items))) }
    ensures refused { IfErr result (IsUnfit (S.size sizes.now) (structs_of table.now)
        (items_in table.now items.entry.items)) }
{
    let given = all_given(alloc, sizes, table, items)?;
    let cells = cells_of(alloc, table, ty)?;
    let values = placed(alloc, &cells, &given)?;
    Ok(values)
}

/// The first values of the cells of a static of that type without an initialiser: zero or null
/// (C11 6.7.9p10).
pub fn zero_values(alloc: Global, table: &TypeTable, ty: &Type) -> Result<Vec<Constant>, NoMemory>
    ensures { IfOk result (λ vs. map (q.first_of table.now) vs.items
        ≡ values_or_zero (cells_in (structs_of table.now) (type_of ty.now)) None) }
{
    let cells = cells_of(alloc, table, ty)?;
    zeros(alloc, &cells)
}

fn zeros(alloc: Global, cells: &[Cell]) -> Result<Vec<Constant>, NoMemory>
    ensures { (types : Table) → IfOk result (λ vs. map (q.first_of types) vs.items
        ≡ values_or_zero cells.now None) }
{
    let mut values = Vec::new(alloc);
    for cell in cells {
        values.push(zero_of(cell.kind))?;
    }
    Ok(values)
}
