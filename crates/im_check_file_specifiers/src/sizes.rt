//! Whether a struct and its members are within the limit of sizes.
ghost use Rattle.std.specs.Prelude.{MatchResult};
ghost use Rattle.im_ctype.specs.Table.{structs_of};
ghost use Rattle.im_check_place.specs.Fields.{fields_of};
ghost use Rattle.im_check_file_specifiers.specs.Sizes.{MembersFit, IsMemberOver, StructFits};
ghost use Rattle.im_check_file_specifiers.specs.Sizes.{IsStructOver};

use im_check_place::Field;
use im_check_sizes::{all_fit, fits};
use im_check_stop::Stop;
use im_ctype::TypeTable;
use im_types::Type;

/// Whether the types of members, and those within them, are within the limit of sizes.
fn members_fit(table: &TypeTable, fields: &[Field]) -> Result<(), Stop>
    ensures { let known = structs_of table.now in let ms = fields_of fields.now in
        MatchResult result (λ _. MembersFit known ms) (IsMemberOver known ms) }
{
    for field in fields {
        all_fit(table, &field.ty)?;
    }
    Ok(())
}

/// Whether the struct of that number, which has these members, and the types within it are within
/// the limit of sizes; the innermost that isn't is answered.
pub fn struct_fits(table: &TypeTable, fields: &[Field], number: u32) -> Result<(), Stop>
    ensures { let known = structs_of table.now in let ms = fields_of fields.now in
        MatchResult result (λ _. StructFits known ms number) (IsStructOver known ms number) }
{
    members_fit(table, fields)?;
    fits(table, &Type::Struct(number))
}
