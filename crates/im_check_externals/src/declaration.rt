//! Declarations, one declarator behind the other (C11 6.7).
ghost use Rattle.std.specs.Prelude.{MatchResult, [], ◌∷◌};
ghost use Rattle.im_ctree.specs.Shape.{declaration_of, init_declarators_of, specifiers_of};
ghost use Rattle.im_ctree.specs.Tree as t;
ghost use Rattle.im_rules.specs.FileScope.{of_the_file};
ghost use Rattle.im_rules.specs.TypedUnit.{Specify};
ghost use Rattle.im_rules.specs.UnitBreaks.{file_specifiers};
ghost use Rattle.im_ctree_parts.specs.Lists.{list_from, specifiers_in};
ghost use Rattle.im_check_type_specifiers.specs.Specified.{qualified_of};
ghost use Rattle.im_check_file_place.specs.Files.{file_place_of};
ghost use Rattle.im_check_file_functions.specs.im_rules_limits.Limits.{IsFileWithin};
ghost use Rattle.im_check_file_specifiers.specs.Answers.{list_of};
ghost use Rattle.im_check_file_declarations.specs.Declarations.{DeclaratorsDone, DeclarationDone};
ghost use Rattle.im_check_file_declarations.specs.Steps.{with_declarator};
ghost use Rattle.im_check_externals.specs.Faults.{IsDeclaredFault, IsExternalFault};

use crate::fault::{UnitFault, in_declarator, in_specifiers};
use im_check_defined::FirstValues;
use im_check_file_declarations::declared;
use im_check_file_place::File;
use im_check_file_specifiers::{Level, specify};
use im_check_type_specifiers::Qualified;
use im_ctree::{Declaration, InitDeclarator, Specifier, Specifiers};
use std::alloc::Global;
use std::slice::from_ref;

fn one(
    alloc: Global,
    specifiers: &[Specifier],
    q: &Qualified,
    x: &InitDeclarator,
    file: &mut File,
    firsts: &mut Vec<FirstValues>,
) -> Result<(), UnitFault>
    ensures { let xs = list_from specifiers.now in let ds = init_declarators_of (x.now ∷ []) in
        MatchResult result
        (λ _. DeclaratorsDone xs (qualified_of q.now) (file_place_of file.old) ds firsts.old.items
        firsts.new.items (file_place_of file.new))
        (λ fault. (rest : t.InitDeclarators) → IsDeclaredFault xs (qualified_of q.now)
        (file_place_of file.old) (with_declarator x.now rest) fault) }
{
    match declared(alloc, specifiers, q, from_ref(x), file, firsts) {
        Ok(()) => Ok(()),
        Err(stop) => Err(in_declarator(alloc, stop, &x.declarator)),
    }
}

fn in_order(
    alloc: Global,
    specifiers: &[Specifier],
    q: &Qualified,
    declarators: &[InitDeclarator],
    file: &mut File,
    firsts: &mut Vec<FirstValues>,
) -> Result<(), UnitFault>
    ensures { let xs = list_from specifiers.now in let ds = init_declarators_of declarators.now in
        MatchResult result
        (λ _. DeclaratorsDone xs (qualified_of q.now) (file_place_of file.old) ds firsts.old.items
        firsts.new.items (file_place_of file.new))
        (IsDeclaredFault xs (qualified_of q.now) (file_place_of file.old) ds) }
{
    for x in declarators {
        one(alloc, specifiers, q, x, file, firsts)?;
    }
    Ok(())
}

fn specified(
    alloc: Global,
    specifiers: &Specifiers,
    file: &mut File,
) -> Result<Qualified, UnitFault>
    ensures { let s = specifiers.now in let f = file_place_of file.old in MatchResult result
        (λ q. Specify of_the_file f (list_of s) (qualified_of q) (file_place_of file.new)
        × IsFileWithin f (file_specifiers of_the_file (specifiers_in s)))
        (λ fault. (ds : t.InitDeclarators) → IsExternalFault f
        (t.external_declaration (t.declaration (specifiers_of s) ds)) fault) }
{
    match specify(alloc, Level::File, specifiers, file) {
        Ok(q) => Ok(q),
        Err(stop) => Err(in_specifiers(alloc, stop, specifiers.at)),
    }
}

/// A declaration at file scope: its names are in scope behind it, and the first values that its
/// initialisers give are behind `firsts`.
pub(crate) fn declaration(
    alloc: Global,
    d: &Declaration,
    file: &mut File,
    firsts: &mut Vec<FirstValues>,
) -> Result<(), UnitFault>
    ensures { let x = t.external_declaration (declaration_of d.now) in MatchResult result
        (λ _. DeclarationDone (file_place_of file.old) x firsts.old.items firsts.new.items
        (file_place_of file.new))
        (IsExternalFault (file_place_of file.old) x) }
{
    let q = specified(alloc, &d.specifiers, file)?;
    in_order(alloc, &d.specifiers.items, &q, &d.declarators, file, firsts)
}
