//! The value of an expression as a constant (C11 6.6p7).
ghost use Rattle.std.specs.Prelude.{◌≡◌, IfOk};
ghost use Rattle.std.specs.Option.{option_map};
ghost use Rattle.im_ctype.specs.Table.{Table};
ghost use Rattle.im_typed.specs.ProgramOf as q;
ghost use Rattle.im_check_items.specs.im_rules.StaticValues as v;
ghost use Rattle.im_check_static_values.specs.Spots.{spot_in};

use crate::address::{Spot, address_of};
use crate::constant::{annotated, number_of};
use crate::sizes::Sizes;
use im_num::{NoMemory, beyond_memory};
use im_typed::{Constant, Expr};
use std::alloc::Global;

/// A pointer to a place in a static. Want of memory where its offset is no number of 32 bits.
fn pointer_to(spot: Option<Spot>) -> Result<Option<Constant>, NoMemory>
    ensures { (types : Table) → IfOk result (λ p. option_map (q.first_of types) p
        ≡ v.pointer_to (option_map spot_in spot)) }
{
    let Some(to) = spot else {
        return Ok(None);
    };
    match u32::try_from(to.offset) {
        Ok(offset) => Ok(Some(Constant::Inside {
            object: to.object,
            offset,
        })),
        Err(_) => Err(beyond_memory()),
    }
}

/// The value of an expression as a constant: a number, null or a place in a static; none where it
/// is neither a constant expression nor an address constant. Want of memory where a number in it
/// has more than 64 bits, or an offset is none of 32.
pub fn static_value<S: Sizes>(
    alloc: Global,
    sizes: &S,
    e: Expr,
) -> Result<Option<Constant>, NoMemory>
    ensures { (types : Table) → IfOk result (λ x. option_map (q.first_of types) x
        ≡ v.static_value (S.size sizes.now) (q.expr_of types e)) }
{
    if let Expr::Null = &e {
        return Ok(Some(Constant::Null));
    }
    let whole = annotated(alloc, e)?;
    if let Some(z) = number_of(&whole) {
        return Ok(Some(Constant::Number(z.value)));
    }
    let spot = address_of(alloc, sizes, whole.tree)?;
    pointer_to(spot)
}
