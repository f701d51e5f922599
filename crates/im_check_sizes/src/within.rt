//! The limit of one type's size.
ghost use Rattle.std.specs.Prelude.{◌≤◌, MatchResult};
ghost use Rattle.im_ctype.specs.Table.{structs_of};
ghost use Rattle.im_rules_limits.specs.im_rules.Terms.{size_in};
ghost use Rattle.im_rules_limits.specs.Limits.{size_limit};
ghost use Rattle.im_check_sizes.specs.Sizes.{IsTooLarge, AllFit, IsOver};
ghost use Rattle.im_types.specs.Shape.{type_of};

use im_check_stop::Stop;
use im_ctype::TypeTable;
use im_types::{Type, size};

/// Whether a type is within the limit of sizes, 1048576 bytes.
pub fn fits(table: &TypeTable, ty: &Type) -> Result<(), Stop>
    ensures { let bytes = size_in (structs_of table.now) (type_of ty.now) in
        MatchResult result (λ _. bytes ≤ size_limit) (IsTooLarge bytes) }
{
    let bytes = size(table, ty)?;
    if bytes > 1_048_576 {
        return Err(Stop::Large { bytes });
    }
    Ok(())
}

/// Whether a type and, where it is an array, its elements and theirs are within the limit of
/// sizes; the innermost that isn't is answered.
pub fn all_fit(table: &TypeTable, ty: &Type) -> Result<(), Stop>
    ensures { let known = structs_of table.now in let a = type_of ty.now in
        MatchResult result (λ _. AllFit known a) (IsOver known a) }
{
    match ty {
        Type::Array(element, _) => {
            all_fit(table, element)?;
            fits(table, ty)
        }
        _ => fits(table, ty),
    }
}
