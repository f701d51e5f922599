//! Heads of function definitions (C11 6.9.1).
ghost use Rattle.std.specs.Prelude.{MatchResult};
ghost use Rattle.im_ctree.specs.Shape.{declarator_of};
ghost use Rattle.im_ctree_parts.specs.Lists.{specifiers_in};
ghost use Rattle.im_check_file_place.specs.Files.{file_place_of};
ghost use Rattle.im_check_file_specifiers.specs.Answers.{list_of};
ghost use Rattle.im_check_file_functions.specs.Heads.{HeadDone, IsHeadFault};

use crate::read::{declared, own_formals};
use im_check_declarators::Declared;
use im_check_file_names::{declared_in_file, may_have_body, own_parameters};
use im_check_file_place::File;
use im_check_file_specifiers::{Level, specify};
use im_check_stop::Stop;
use im_ctree::{Declarator, Specifiers};
use std::alloc::Global;

/// What a function's head declares, and the parameters that are written next to its name.
#[derive(Drop)]
pub(crate) struct Headed {
    pub(crate) declared: Declared,
    pub(crate) formals: Vec<Declared>,
}

/// What stands before a function's body: behind it the function's name is in scope.
pub(crate) fn head(
    alloc: Global,
    specifiers: &Specifiers,
    d: &Declarator,
    file: &mut File,
) -> Result<Headed, Stop>
    ensures { let s = specifiers_in specifiers.now in let e = declarator_of d.now in
        MatchResult result (HeadDone (file_place_of file.old) s e (file_place_of file.new))
        (IsHeadFault (file_place_of file.old) s e) }
{
    let q = specify(alloc, Level::File, specifiers, file)?;
    let first = file.place.next_string;
    let y = declared(alloc, q, d, file)?;
    may_have_body(d.at, d, &y)?;
    let formals = own_formals(alloc, first, own_parameters(d), &mut file.place)?;
    declared_in_file(alloc, &specifiers.items, d.at, &y, &y.ty, true, file)?;
    Ok(Headed {
        declared: y,
        formals,
    })
}
