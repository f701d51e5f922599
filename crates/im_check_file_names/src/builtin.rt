//! The functions that are predeclared.
ghost use Rattle.std.specs.Prelude.{◌≡◌, ◌||◌, IfOk};
ghost use Rattle.im_ctype.specs.Types as t;
ghost use Rattle.im_check_declarators.specs.im_rules.FileScope as f;
ghost use Rattle.im_check_declarators.specs.im_rules.Rules as u;
ghost use Rattle.im_types.specs.Shape.{type_of, types_in};

use crate::names::same_name;
use im_ctype::Integer;
use im_num::NoMemory;
use im_serve::Service;
use im_types::{Type, function_of, same};
use std::alloc::Global;

/// Whether it is the type of a function of these parameters that gives an int, not a const one, and
/// has no body.
fn is_own(
    alloc: Global,
    parameters: Vec<Type>,
    constant: bool,
    ty: &Type,
    has_body: bool,
) -> Result<bool, NoMemory>
    ensures { IfOk result (λ own. own ≡ u.rule_12_builtin
        (t.function (t.integer Integer.Int) (types_in parameters.items)) constant (type_of ty.now)
        has_body) }
{
    let own = function_of(alloc, Type::Integer(Integer::Int), parameters)?;
    Ok(same(&own, ty) && !constant && !has_body)
}

fn keeps_getchar(alloc: Global, constant: bool, ty: &Type, has_body: bool) -> Result<bool, NoMemory>
    ensures { IfOk result (λ own. own ≡ u.rule_12_builtin f.getchar_type constant (type_of ty.now)
        has_body) }
{
    is_own(alloc, Vec::new(alloc), constant, ty, has_body)
}

fn keeps_putchar(alloc: Global, constant: bool, ty: &Type, has_body: bool) -> Result<bool, NoMemory>
    ensures { IfOk result (λ own. own ≡ u.rule_12_builtin f.putchar_type constant (type_of ty.now)
        has_body) }
{
    let mut parameters = Vec::new(alloc);
    parameters.push(Type::Integer(Integer::Int))?;
    is_own(alloc, parameters, constant, ty, has_body)
}

fn keeps_builtin(
    alloc: Global,
    name: &[u8],
    constant: bool,
    ty: &Type,
    has_body: bool,
) -> Result<bool, NoMemory>
    ensures { IfOk result (λ own. own
        ≡ f.keeps_builtin name.now constant (type_of ty.now) has_body) }
{
    if same_name(Service::Getchar.name(), name) {
        return keeps_getchar(alloc, constant, ty, has_body);
    }
    if same_name(Service::Putchar.name(), name) {
        return keeps_putchar(alloc, constant, ty, has_body);
    }
    Ok(true)
}

/// Whether `getchar` and `putchar` keep their types and have no body, but for a typedef (rule 12).
pub(crate) fn may_be_builtin(
    alloc: Global,
    typedef: bool,
    name: &[u8],
    constant: bool,
    ty: &Type,
    has_body: bool,
) -> Result<bool, NoMemory>
    ensures { IfOk result (λ may. may
        ≡ (typedef || f.keeps_builtin name.now constant (type_of ty.now) has_body)) }
{
    if typedef {
        return Ok(true);
    }
    keeps_builtin(alloc, name, constant, ty, has_body)
}
