//! Parameters as the first objects of a function (C11 6.9.1p9).
ghost use Rattle.std.specs.Prelude.{◌≡◌, ◌∷◌, map, length, IfOk, List};
ghost use Rattle.im_check_statements.specs.im_ctype.Table.{Table, structs_of};
ghost use Rattle.im_rules.specs.Declared as d;
ghost use Rattle.im_rules.specs.Statements as s;
ghost use Rattle.im_rules.specs.TypedUnit as u;
ghost use Rattle.im_rules.specs.TypeTests as q;
ghost use Rattle.im_types.specs.Shape.{type_of};
ghost use Rattle.im_check_declarators.specs.Shape.{declared_of};
ghost use Rattle.im_check_sites.specs.Sites.{object_in, objects_in};

use crate::entered::number_of;
use im_check_conversions::kind_in;
use im_check_declarators::Declared;
use im_check_sites::Local;
use im_num::{Kind, NoMemory};
use im_types::{Type, copy, is_void};
use std::alloc::Global;

/// The name that is declared; empty where there is none.
pub(crate) fn name_of(alloc: Global, y: &Declared) -> Result<Vec<u8>, NoMemory>
    ensures { IfOk result (λ x. x.items ≡ s.name_of (declared_of y.now).name) }
{
    match &y.name {
        None => Ok(Vec::new(alloc)),
        Some(name) => Ok(Vec::from_slice(alloc, name)?),
    }
}

fn local(alloc: Global, y: &Declared) -> Result<Local, NoMemory>
    ensures { IfOk result (λ l. (types : Table) (rest : List d.Declared)
        → u.parameter_objects (structs_of types) (declared_of y.now ∷ rest)
        ≡ object_in types l ∷ u.parameter_objects (structs_of types) rest) }
{
    let name = name_of(alloc, y)?;
    let ty = copy(alloc, &y.ty)?;
    Ok(Local { name, ty })
}

/// The objects that parameters are, in order.
pub(crate) fn locals(alloc: Global, formals: &[Declared]) -> Result<Vec<Local>, NoMemory>
    ensures { IfOk result (λ v. (types : Table) → objects_in types v.items
        ≡ u.parameter_objects (structs_of types) (map declared_of formals.now)) }
{
    let mut done = Vec::new(alloc);
    for formal in formals {
        let one = local(alloc, formal)?;
        done.push(one)?;
    }
    Ok(done)
}

/// The number of the parameters.
pub(crate) fn count(formals: &[Declared]) -> Result<u32, NoMemory>
    ensures { IfOk result (λ n. n ≡ length (map declared_of formals.now)) }
{
    number_of(formals.len())
}

/// The type of a function's result; void of what is no function.
pub(crate) fn returned(alloc: Global, ty: &Type) -> Result<Type, NoMemory>
    ensures { IfOk result (λ r. type_of r ≡ q.result_of (type_of ty.now)) }
{
    match ty {
        Type::Function(result, _) => copy(alloc, result),
        Type::Void
        | Type::Integer(_)
        | Type::Pointer(_, _)
        | Type::Array(_, _)
        | Type::Unsized(_)
        | Type::Struct(_) => Ok(Type::Void),
    }
}

/// The kind of a function's result, if it has one.
pub(crate) fn result_kind(ty: &Type) -> Option<Kind>
    ensures { result ≡ u.result_kind (type_of ty.now) }
{
    if is_void(ty) {
        return None;
    }
    Some(kind_in(ty))
}
