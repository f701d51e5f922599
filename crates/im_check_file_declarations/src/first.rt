//! The first values that initialisers give statics (C11 6.7.9).
ghost use Rattle.std.specs.Prelude.{◌≡◌, MatchResult};
ghost use Rattle.std.specs.Option.{option_map};
ghost use Rattle.im_ctree.specs.Shape.{initializer_of, maybe_initializer_of};
ghost use Rattle.im_ctree.specs.Tree as t;
ghost use Rattle.im_rules.specs.Statements.{name_of as name_in};
ghost use Rattle.im_types.specs.Shape.{type_of};
ghost use Rattle.im_check_declarators.specs.Shape.{declared_of};
ghost use Rattle.im_check_file_place.specs.Files.{file_place_of};
ghost use Rattle.im_check_defined.specs.Values.{first_values_of};
ghost use Rattle.im_check_file_declarations.specs.Steps.{IsFirst, IsFirstFault, MayAdd};

use crate::values::values;
use im_check_declarators::Declared;
use im_check_defined::FirstValues;
use im_check_file_place::File;
use im_check_initialisers::initialised;
use im_check_stop::Stop;
use im_check_texts::append_given;
use im_ctree::{Initializer, Name};
use im_types::Type;
use std::alloc::Global;

/// A name, empty where there is none.
fn named(alloc: Global, name: Option<Name>) -> Name
    ensures { result.items ≡ name_in (option_map (λ x. x.items) name) }
{
    match name {
        Some(x) => x,
        None => Vec::new(alloc),
    }
}

/// What an initialiser gives the static of that name and type.
fn given_by(
    alloc: Global,
    name: Name,
    ty: &Type,
    i: &Initializer,
    file: &mut File,
) -> Result<FirstValues, Stop>
    ensures { let p = file_place_of file.old in let a = type_of ty.now in
        let given = initializer_of i.now in MatchResult result
        (λ g. IsFirst p name.items a given (first_values_of g) (file_place_of file.new))
        (IsFirstFault p a (t.an_initializer given)) }
{
    let mut items = Vec::new(alloc);
    initialised(alloc, ty, 0, i, &mut file.place, &mut items)?;
    append_given(alloc, file.place.structs.table(), ty, i, &mut file.texts)?;
    let values = values(alloc, ty, items, file)?;
    Ok(FirstValues { name, values })
}

/// Adds what an initialiser gives a static of that type, if there is one.
pub(crate) fn given(
    alloc: Global,
    y: Declared,
    ty: &Type,
    initializer: &Option<Initializer>,
    file: &mut File,
    firsts: &mut Vec<FirstValues>,
) -> Result<(), Stop>
    ensures { let p = file_place_of file.old in let a = type_of ty.now in
        let i = maybe_initializer_of initializer.now in MatchResult result
        (λ _. MayAdd p (name_in (declared_of y).name) a i firsts.old.items firsts.new.items
        (file_place_of file.new))
        (IsFirstFault p a i) }
{
    match initializer {
        None => Ok(()),
        Some(i) => {
            let name = named(alloc, y.name);
            let g = given_by(alloc, name, ty, i, file)?;
            firsts.push(g)?;
            Ok(())
        }
    }
}
