//! The first values of each static by its name.
ghost use Rattle.std.specs.Prelude.{◌≡◌, map, IfOk};
ghost use Rattle.im_ctype.specs.Table.{structs_of};
ghost use Rattle.im_check_defined.specs.im_rules.TypedUnit as u;
ghost use Rattle.im_typed.specs.ProgramOf.{first_of};
ghost use Rattle.im_types.specs.Shape.{type_of};
ghost use Rattle.im_check_defined.specs.Values.{first_values_in};
ghost use Rattle.im_check_program.specs.Given.{names_given};

use im_check_defined::FirstValues;
use im_check_name_map::NameList;
use im_check_static_values::zero_values;
use im_ctype::TypeTable;
use im_num::NoMemory;
use im_typed::Constant;
use im_types::Type;
use std::alloc::Global;

/// The names of the statics that initialisers give values, in their order.
pub(crate) fn names_of(alloc: Global, given: &[FirstValues]) -> Result<NameList, NoMemory>
    ensures { IfOk result (λ names. names ≡ names_given given.now) }
{
    let mut names = NameList::new(alloc);
    for one in given {
        names.push(alloc, &one.name)?;
    }
    Ok(names)
}

/// The first values of the cells of the static of that name and type: zero or null without an
/// initialiser (C11 6.7.9p10).
pub(crate) fn first_values(
    alloc: Global,
    table: &TypeTable,
    given: &[FirstValues],
    names: &NameList,
    name: &[u8],
    ty: &Type,
) -> Result<Vec<Constant>, NoMemory>
    requires { names.now ≡ names_given given.now }
    ensures { IfOk result (λ vs. map (first_of table.now) vs.items
        ≡ u.values_or_zero (u.cells_in (structs_of table.now) (type_of ty.now))
        (u.given_to name.now (first_values_in given.now))) }
{
    match given.get(names.place(name)) {
        None => zero_values(alloc, table, ty),
        Some(one) => Ok(Vec::from_slice(alloc, &one.values)?),
    }
}
