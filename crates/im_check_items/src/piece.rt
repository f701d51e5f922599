//! An item as a piece of a declaration in a block (C11 6.7.9p11).
ghost use Rattle.std.specs.Prelude.{◌≡◌, pos, map, IfOk};
ghost use Rattle.im_ctype.specs.Table.{Table, structs_of};
ghost use Rattle.im_num.specs.Kinds.{wrap};
ghost use Rattle.im_typed.specs.Program as p;
ghost use Rattle.im_typed.specs.ProgramOf as q;
ghost use Rattle.im_typed.specs.declared.statement.Piece as rp;
ghost use Rattle.im_check_conversions.specs.im_rules.Conversions as c;
ghost use Rattle.im_check_conversions.specs.im_rules.Initialisers as n;
ghost use Rattle.im_check_conversions.specs.im_rules.Terms as r;
ghost use Rattle.im_types.specs.Shape.{type_of};
ghost use Rattle.im_check_operands.specs.Shape.{term_in};
ghost use Rattle.im_check_items.specs.Shape.{item_in, items_in, source_in};

use crate::item::{Item, Source};
use im_check_conversions::{access, as_type, kind_in, value_of};
use im_check_operands::Term;
use im_ctype::TypeTable;
use im_num::{Kind, NoMemory, beyond_memory, of_word};
use im_typed::{Expr, Piece};
use im_types::Type;
use std::alloc::Global;

/// A term as a value of that type.
fn converted(alloc: Global, table: &TypeTable, ty: &Type, term: Term) -> Result<Expr, NoMemory>
    ensures { IfOk result (λ e. q.expr_of table.now e ≡ c.as_type (type_of ty.now)
        (r.value_of (structs_of table.now) (term_in table.now term))) }
{
    let value = value_of(alloc, table, term)?;
    let expr = as_type(alloc, ty, value)?;
    Ok(expr.tree)
}

/// A byte as a value of that kind.
fn constant(kind: Kind, byte: u8) -> Expr
    ensures { (types : Table) → q.expr_of types result
        ≡ p.Constant kind (wrap kind (pos byte)) }
{
    Expr::Number(kind, of_word(kind, byte as u32))
}

/// What goes to a place of that type.
fn source_value(
    alloc: Global,
    table: &TypeTable,
    ty: &Type,
    source: Source,
) -> Result<Expr, NoMemory>
    ensures { IfOk result (λ e. q.expr_of table.now e ≡ (n.piece_by (structs_of table.now) 0
        (type_of ty.now) (source_in table.now source.entry)).value) }
{
    match source {
        Source::Term(_, term) => converted(alloc, table, ty, term),
        Source::Byte(byte) => Ok(constant(kind_in(ty), byte)),
    }
}

/// The piece that an item is: converted to the type there. Want of memory where its offset is no
/// number of 32 bits.
pub fn piece_of(alloc: Global, table: &TypeTable, item: Item) -> Result<Piece, NoMemory>
    ensures { IfOk result (λ x. q.piece_of table.now x
        ≡ n.piece_of (structs_of table.now) (item_in table.now item.entry)) }
{
    let Item { offset, ty, source } = item;
    let Ok(offset) = u32::try_from(offset) else {
        return Err(beyond_memory());
    };
    let access = access(table, &ty)?;
    let value = source_value(alloc, table, &ty, source)?;
    Ok(Piece {
        offset,
        access,
        value,
    })
}

/// The pieces that items are, in their order.
pub fn pieces_of(alloc: Global, table: &TypeTable, items: Vec<Item>) -> Result<Vec<Piece>, NoMemory>
    ensures { IfOk result (λ xs. map {A = rp.Piece} (q.piece_of table.now) xs.items
        ≡ n.pieces_of (structs_of table.now) (items_in table.now items.entry.items)) }
{
    let mut pieces = Vec::new(alloc);
    for item in items {
        let piece = piece_of(alloc, table, item)?;
        pieces.push(piece)?;
    }
    Ok(pieces)
}
