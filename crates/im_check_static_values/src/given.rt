//! What each item of an initialiser gives its cell, where all are constants (C11 6.7.9p4).
ghost use Rattle.std.specs.Prelude.{◌≡◌, MatchResult};
ghost use Rattle.im_ctype.specs.Table.{Table, structs_of};
ghost use Rattle.im_check_items.specs.im_rules.StaticValues as v;
ghost use Rattle.im_check_stop.specs.Answers.{IsRefusal};
ghost use Rattle.im_check_items.specs.Shape.{item_in, items_in, source_in};
ghost use Rattle.im_check_static_values.specs.Firsts.{IsUnfit};
ghost use Rattle.im_check_static_values.specs.Given.{IsGiven, AreGiven};

use crate::constant::taken;
use crate::reached::is_reached_directly;
use crate::sizes::Sizes;
use crate::value::static_value;
use im_check_items::{Item, Source, piece_of};
use im_check_stop::{Stop, refused};
use im_ctype::TypeTable;
use im_typed::Constant;
use std::alloc::Global;

/// The first value of a cell.
#[derive(Clone, Copy, Debug)]
pub struct Given {
    /// Bytes from the start of the object.
    pub offset: u64,
    pub value: Constant,
}

fn is_source_reached(source: &Source) -> bool
    ensures { (types : Table) → result ≡ v.is_source_reached (source_in types source.now) }
{
    match source {
        Source::Term(e, _) => is_reached_directly(e),
        Source::Byte(_) => true,
    }
}

fn token_of(source: &Source) -> u32
    ensures { (types : Table) → result ≡ v.source_token (source_in types source.now) }
{
    match source {
        Source::Term(e, _) => e.at,
        Source::Byte(_) => 0,
    }
}

/// What an item gives; the rule on constants, at its first token, where it is none.
fn one_given<S: Sizes>(
    alloc: Global,
    sizes: &S,
    table: &TypeTable,
    item: Item,
) -> Result<Given, Stop>
    ensures { MatchResult result
        (IsGiven table.now (S.size sizes.now) (item_in table.now item.entry))
        (IsRefusal (v.constant_asks (S.size sizes.now) (structs_of table.now)
        (item_in table.now item.entry)) (v.item_token (item_in table.now item.entry))) }
{
    let at = token_of(&item.source);
    if !is_source_reached(&item.source) {
        return Err(refused(14, at));
    }
    let mut piece = piece_of(alloc, table, item)?;
    let offset = piece.offset as u64;
    match static_value(alloc, sizes, taken(&mut piece.value))? {
        Some(value) => Ok(Given { offset, value }),
        None => Err(refused(14, at)),
    }
}

/// What the items give, in their order.
pub(crate) fn all_given<S: Sizes>(
    alloc: Global,
    sizes: &S,
    table: &TypeTable,
    items: Vec<Item>,
) -> Result<Vec<Given>, Stop>
    ensures { MatchResult result
        (λ gs. AreGiven table.now (S.size sizes.now) (items_in table.now items.entry.items) gs.items)
        (IsUnfit (S.size sizes.now) (structs_of table.now) (items_in table.now items.entry.items)) }
{
    let mut done = Vec::new(alloc);
    for item in items {
        let one = one_given(alloc, sizes, table, item)?;
        done.push(one)?;
    }
    Ok(done)
}
