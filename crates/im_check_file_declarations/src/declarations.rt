//! Declarations at file scope (C11 6.7, 6.9.2).
ghost use Rattle.std.specs.Prelude.{MatchResult};
ghost use Rattle.im_ctree.specs.Shape.{declaration_of, init_declarators_of};
ghost use Rattle.im_ctree.specs.Tree as t;
ghost use Rattle.im_rules.specs.UnitBreaks.{an_external, some_declared};
ghost use Rattle.im_ctree_parts.specs.Lists.{list_from};
ghost use Rattle.im_check_type_specifiers.specs.Specified.{qualified_of};
ghost use Rattle.im_check_file_place.specs.Files.{file_place_of};
ghost use Rattle.im_check_file_specifiers.specs.Answers.{IsFileFault};
ghost use Rattle.im_check_file_declarations.specs.Declarations.{DeclaratorsDone, DeclarationDone};

use crate::declarator::one_declared;
use im_check_defined::FirstValues;
use im_check_file_place::File;
use im_check_file_specifiers::{Level, specify};
use im_check_stop::Stop;
use im_check_type_specifiers::Qualified;
use im_ctree::{Declaration, InitDeclarator, Specifier};
use std::alloc::Global;

/// Declares what declarators declare at file scope, in order, of the type that their specifiers
/// name, and adds what their initialisers give.
pub fn declared(
    alloc: Global,
    specifiers: &[Specifier],
    q: &Qualified,
    declarators: &[InitDeclarator],
    file: &mut File,
    firsts: &mut Vec<FirstValues>,
) -> Result<(), Stop>
    ensures { let xs = list_from specifiers.now in let ds = init_declarators_of declarators.now in
        MatchResult result
        (λ _. DeclaratorsDone xs (qualified_of q.now) (file_place_of file.old) ds firsts.old.items
        firsts.new.items (file_place_of file.new))
        (IsFileFault (file_place_of file.old) (some_declared xs (qualified_of q.now) ds)) }
{
    for x in declarators {
        one_declared(alloc, specifiers, q, x, file, firsts)?;
    }
    Ok(())
}

/// A declaration at file scope: its names are in scope behind it, and the first values that its
/// initialisers give are behind `firsts`.
pub fn declaration(
    alloc: Global,
    d: &Declaration,
    file: &mut File,
    firsts: &mut Vec<FirstValues>,
) -> Result<(), Stop>
    ensures { let x = t.external_declaration (declaration_of d.now) in MatchResult result
        (λ _. DeclarationDone (file_place_of file.old) x firsts.old.items firsts.new.items
        (file_place_of file.new))
        (IsFileFault (file_place_of file.old) (an_external x)) }
{
    let q = specify(alloc, Level::File, &d.specifiers, file)?;
    declared(alloc, &d.specifiers.items, &q, &d.declarators, file, firsts)
}
