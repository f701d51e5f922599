//! The first values of a static's cells at a place at file scope.
ghost use Rattle.std.specs.Prelude.{◌≡◌, MatchResult};
ghost use Rattle.im_rules.specs.FileScope.{static_size};
ghost use Rattle.im_rules.specs.Initialisers.{pieces_of};
ghost use Rattle.im_rules.specs.StaticValues.{cell_values};
ghost use Rattle.im_rules.specs.TypedUnit.{cells_in, AreConstants};
ghost use Rattle.im_types.specs.Shape.{type_of};
ghost use Rattle.im_check_items.specs.Shape.{items_in};
ghost use Rattle.im_check_file_place.specs.Files.{file_place_of};
ghost use Rattle.im_check_defined.specs.Values.{values_in};
ghost use Rattle.im_check_file_declarations.specs.Steps.{IsRefusedItem};

use crate::statics::Statics;
use im_check_file_place::File;
use im_check_items::Item;
use im_check_static_values::first_values;
use im_check_stop::Stop;
use im_typed::Constant;
use im_types::Type;
use std::alloc::Global;

/// The first values of the cells of a static of that type, behind the string literals of its
/// initialiser, whose items these are.
pub(crate) fn values(
    alloc: Global,
    ty: &Type,
    items: Vec<Item>,
    file: &File,
) -> Result<Vec<Constant>, Stop>
    ensures { let p = file_place_of file.now in
        let ps = items_in file.now.place.structs items.entry.items in MatchResult result
        (λ vs. AreConstants p ps × (values_in vs.items ≡ cell_values (static_size p)
        (cells_in p.context.known (type_of ty.now)) (pieces_of p.context.known ps)))
        (IsRefusedItem p ps) }
{
    let statics = Statics { file };
    first_values(alloc, &statics, file.place.structs.table(), ty, items)
}
