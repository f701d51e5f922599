//! The parts of a function's head, with their string literals.
ghost use Rattle.std.specs.Prelude.{◌≡◌, map, MatchResult};
ghost use Rattle.im_ctree.specs.Shape.{declarator_of};
ghost use Rattle.im_rules.specs.Breaks.{a_declarator, some_parameters};
ghost use Rattle.im_rules.specs.Context.{in_new_scope};
ghost use Rattle.im_rules.specs.FileScope.{past_strings};
ghost use Rattle.im_rules.specs.Strings.{strings_of_declarator};
ghost use Rattle.im_rules.specs.Typed.{Declares, AreParameters};
ghost use Rattle.im_check_statements.specs.im_rules_limits.Limits.{IsWithin};
ghost use Rattle.im_ctree_parts.specs.Lists.{parameters_from};
ghost use Rattle.im_check_type_specifiers.specs.Specified.{qualified_of};
ghost use Rattle.im_check_declarators.specs.Shape.{declared_of};
ghost use Rattle.im_check_declarators.specs.Suffixes.{IsFault};
ghost use Rattle.im_check_place.specs.Contexts.{context_of};
ghost use Rattle.im_check_file_place.specs.Files.{file_place_of};
ghost use Rattle.im_check_file_functions.specs.Heads.{at_string};

use im_check_declarators::Declared;
use im_check_file_place::File;
use im_check_file_specifiers::{declarator, parameters};
use im_check_place::Place;
use im_check_stop::Stop;
use im_check_texts::append_declarator;
use im_check_type_specifiers::Qualified;
use im_ctree::{Declarator, Parameter};
use std::alloc::Global;

/// What a declarator at file scope declares.
pub(crate) fn declared(
    alloc: Global,
    q: Qualified,
    written: &Declarator,
    file: &mut File,
) -> Result<Declared, Stop>
    ensures { let e = declarator_of written.now in let c = context_of file.old.place in
        MatchResult result (λ y. Declares c (qualified_of q) e (declared_of y)
        × (file_place_of file.new ≡ past_strings (strings_of_declarator e) (file_place_of file.old))
        × IsWithin c (a_declarator (qualified_of q) e))
        (IsFault c (a_declarator (qualified_of q) e)) }
{
    let y = declarator(alloc, q, written, &mut file.place)?;
    append_declarator(alloc, written, &mut file.texts)?;
    Ok(y)
}

/// The parameters that stand in a declarator, by the number of the string literal at which this
/// begins; what is known stays as it is.
pub(crate) fn own_formals(
    alloc: Global,
    first: u32,
    written: &[Parameter],
    place: &mut Place,
) -> Result<Vec<Declared>, Stop>
    ensures { let ps = parameters_from written.now in
        let c = in_new_scope (at_string first (context_of place.old)) in
        MatchResult result (λ ds. AreParameters c 0 ps (map declared_of ds.items)
        × (place.new ≡ place.old))
        (IsFault c (some_parameters 0 ps)) }
{
    let behind = place.next_string;
    place.next_string = first;
    let formals = parameters(alloc, written, place)?;
    place.next_string = behind;
    Ok(formals)
}
