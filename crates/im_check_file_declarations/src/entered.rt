//! What a declarator at file scope declares, in scope behind it (C11 6.7, 6.9).
ghost use Rattle.std.specs.Prelude.{◌≡◌, MatchResult};
ghost use Rattle.im_ctree.specs.Shape.{declarator_of, maybe_initializer_of};
ghost use Rattle.im_rules.specs.Breaks.{a_declarator};
ghost use Rattle.im_rules.specs.FileScope.{past_strings};
ghost use Rattle.im_rules.specs.Initialisers.{completed as completed_type};
ghost use Rattle.im_rules.specs.Strings.{strings_of_declarator};
ghost use Rattle.im_rules.specs.Typed.{Declares};
ghost use Rattle.im_check_file_specifiers.specs.im_rules_limits.Limits.{IsWithin};
ghost use Rattle.im_ctree_parts.specs.Lists.{list_from};
ghost use Rattle.im_types.specs.Shape.{type_of};
ghost use Rattle.im_check_type_specifiers.specs.Specified.{qualified_of};
ghost use Rattle.im_check_declarators.specs.Shape.{declared_of};
ghost use Rattle.im_check_declarators.specs.Suffixes.{IsFault};
ghost use Rattle.im_check_file_place.specs.Files.{file_place_of};
ghost use Rattle.im_check_file_declarations.specs.Steps.{IsEntered, IsNameFault};

use im_check_declarators::Declared;
use im_check_file_names::declared_in_file;
use im_check_file_place::File;
use im_check_file_specifiers::declarator;
use im_check_shapes::completed;
use im_check_sizes::all_fit;
use im_check_stop::Stop;
use im_check_texts::append_declarator;
use im_check_type_specifiers::Qualified;
use im_ctree::{Declarator, Initializer, Specifier};
use im_types::{Type, copy};
use std::alloc::Global;

/// What a declarator declares, behind its string literals.
pub(crate) fn read(
    alloc: Global,
    q: Qualified,
    d: &Declarator,
    file: &mut File,
) -> Result<Declared, Stop>
    ensures { let e = declarator_of d.now in let p = file_place_of file.old in MatchResult result
        (λ y. Declares p.context (qualified_of q) e (declared_of y)
        × (file_place_of file.new ≡ past_strings (strings_of_declarator e) p)
        × IsWithin p.context (a_declarator (qualified_of q) e))
        (IsFault p.context (a_declarator (qualified_of q) e)) }
{
    let y = declarator(alloc, q, d, &mut file.place)?;
    append_declarator(alloc, d, &mut file.texts)?;
    Ok(y)
}

/// The type of what is declared, with the length that its initialiser gives; its name is in scope.
pub(crate) fn entered(
    alloc: Global,
    specifiers: &[Specifier],
    at: u32,
    y: &Declared,
    initializer: &Option<Initializer>,
    file: &mut File,
) -> Result<Type, Stop>
    ensures { let p = file_place_of file.old in let xs = list_from specifiers.now in
        let z = declared_of y.now in let i = maybe_initializer_of initializer.now in
        MatchResult result
        (λ ty. (type_of ty ≡ completed_type z.type i) × IsEntered p xs z i (file_place_of file.new))
        (IsNameFault p xs z i at) }
{
    let ty = completed(copy(alloc, &y.ty)?, initializer);
    let whole = initializer.is_some();
    declared_in_file(alloc, specifiers, at, y, &ty, whole, file)?;
    all_fit(file.place.structs.table(), &ty)?;
    Ok(ty)
}
