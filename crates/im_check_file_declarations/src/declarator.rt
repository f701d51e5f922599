//! One declarator of a declaration at file scope, with its initialiser.
ghost use Rattle.std.specs.Prelude.{◌≡◌, MatchResult, IfOk};
ghost use Rattle.im_ctree.specs.Tree as t;
ghost use Rattle.im_rules.specs.UnitBreaks.{some_declared};
ghost use Rattle.im_ctree_parts.specs.Lists.{list_from};
ghost use Rattle.im_check_type_specifiers.specs.Specified.{qualified_of};
ghost use Rattle.im_check_file_place.specs.Files.{file_place_of};
ghost use Rattle.im_check_file_specifiers.specs.Answers.{IsFileFault};
ghost use Rattle.im_check_file_declarations.specs.Steps.{GoesOnDeclared, with_declarator};

use crate::entered::{entered, read};
use crate::first::given;
use im_check_defined::FirstValues;
use im_check_file_place::File;
use im_check_stop::Stop;
use im_check_type_specifiers::Qualified;
use im_ctree::{InitDeclarator, Specifier};
use im_num::NoMemory;
use im_types::copy;
use std::alloc::Global;

fn once_more(alloc: Global, q: &Qualified) -> Result<Qualified, NoMemory>
    ensures { IfOk result (λ r. qualified_of r ≡ qualified_of q.now) }
{
    Ok(Qualified {
        constant: q.constant,
        ty: copy(alloc, &q.ty)?,
    })
}

/// Declares what a declarator declares, of the type that its specifiers name, and adds what its
/// initialiser gives.
pub(crate) fn one_declared(
    alloc: Global,
    specifiers: &[Specifier],
    q: &Qualified,
    x: &InitDeclarator,
    file: &mut File,
    firsts: &mut Vec<FirstValues>,
) -> Result<(), Stop>
    ensures { (rest : t.InitDeclarators) → let xs = list_from specifiers.now in
        let all = with_declarator x.now rest in MatchResult result
        (λ _. GoesOnDeclared xs (qualified_of q.now) (file_place_of file.old) all firsts.old.items
        firsts.new.items rest (file_place_of file.new))
        (IsFileFault (file_place_of file.old) (some_declared xs (qualified_of q.now) all)) }
{
    let each = once_more(alloc, q)?;
    let y = read(alloc, each, &x.declarator, file)?;
    let ty = entered(alloc, specifiers, x.declarator.at, &y, &x.initializer, file)?;
    given(alloc, y, &ty, &x.initializer, file, firsts)
}
