//! Function types (C11 6.7.6.3).
ghost use Rattle.std.specs.Prelude.{◌≡◌, ◌&&◌, ◌∷◌, [], map, length, nat_eq, IfOk};
ghost use Rattle.im_ctree.specs.declared.specifier.Specifiers.{out-Specifiers};
ghost use Rattle.im_rules.specs.Declared as d;
ghost use Rattle.im_rules.specs.Rules as u;
ghost use Rattle.im_ctree_parts.specs.Lists.{parameters_from};
ghost use Rattle.im_types.specs.Shape.{type_of, types_in};
ghost use Rattle.im_check_type_specifiers.specs.Specified.{IsQualified, qualified_of};
ghost use Rattle.im_check_declarators.specs.Shape.{declared_of};

use crate::declared::Declared;
use im_check_stop::{Stop, refused};
use im_check_type_specifiers::Qualified;
use im_ctree::{Parameter, Specifier};
use im_num::NoMemory;
use im_types::{Type, copy, function_of, is_scalar, is_void};
use std::alloc::Global;

fn is_one(specifiers: &[Specifier]) -> bool
    ensures { result ≡ nat_eq (length specifiers.now) 1 }
{
    specifiers.len() == 1
}

fn is_unnamed_word(parameter: &Parameter) -> bool
    ensures { u.rule_9_void (parameters_from (parameter.now ∷ [])) ≡ result }
{
    match &parameter.declarator {
        None => is_one(&parameter.specifiers.items),
        Some(_) => false,
    }
}

/// Whether the parameters are one word without a name.
fn is_one_word(parameters: &[Parameter]) -> bool
    ensures { u.rule_9_void (parameters_from parameters.now) ≡ result }
{
    if parameters.len() != 1 {
        return false;
    }
    is_unnamed_word(&parameters[0])
}

fn is_void_alone(declared: &Declared) -> bool
    ensures { d.is_only_void (declared_of declared.now ∷ []) ≡ result }
{
    is_void(&declared.ty)
}

fn is_only_void(declared: &[Declared]) -> bool
    ensures { d.is_only_void (map declared_of declared.now) ≡ result }
{
    if declared.len() != 1 {
        return false;
    }
    is_void_alone(&declared[0])
}

/// The parameters that there are: one unnamed void stands for none (C11 6.7.6.3p10).
pub fn without_void<'a>(parameters: &[Parameter], declared: &'a [Declared]) -> &'a [Declared]
    ensures { map declared_of result.now ≡ d.parameters_of (parameters_from parameters.now)
        (map declared_of declared.now) }
{
    if is_one_word(parameters) && is_only_void(declared) {
        return &declared[..0];
    }
    declared
}

fn is_scalar_parameter(declared: &Declared) -> bool
    ensures { result ≡ u.rule_9_parameter (type_of declared.now.ty) }
{
    is_scalar(&declared.ty)
}

/// Whether each parameter is an integer or a pointer.
pub fn are_scalars(declared: &[Declared]) -> bool
    ensures { result ≡ d.are_scalars (map declared_of declared.now) }
{
    for parameter in declared {
        if !is_scalar_parameter(parameter) {
            return false;
        }
    }
    true
}

/// Their types.
fn types(alloc: Global, declared: &[Declared]) -> Result<Vec<Type>, NoMemory>
    ensures { IfOk result (λ v. types_in v.items ≡ d.types_of (map declared_of declared.now)) }
{
    let mut done = Vec::new(alloc);
    for parameter in declared {
        let ty = copy(alloc, &parameter.ty)?;
        done.push(ty)?;
    }
    Ok(done)
}

fn may_be_result(ty: &Type) -> bool
    ensures { result ≡ u.rule_9_result (type_of ty.now) }
{
    is_void(ty) || is_scalar(ty)
}

fn may_be_function(returned: &Type, declared: &[Declared]) -> bool
    ensures { result ≡ (u.rule_9_result (type_of returned.now) && d.are_scalars
        (map declared_of declared.now)) }
{
    may_be_result(returned) && are_scalars(declared)
}

/// A function of these parameters, by how they are written and how they are declared; `at` is the
/// first token of its suffix.
pub fn function(
    alloc: Global,
    at: u32,
    parameters: &[Parameter],
    declared: &[Declared],
    q: Qualified,
) -> Result<Qualified, Stop>
    ensures { let ds = d.parameters_of (parameters_from parameters.now)
        (map declared_of declared.now) in
        IsQualified (d.function_asks (qualified_of q) ds) (d.function_of (qualified_of q) ds) at
        result }
{
    let kept = without_void(parameters, declared);
    if !may_be_function(&q.ty, kept) {
        return Err(refused(9, at));
    }
    let types = types(alloc, kept)?;
    let ty = function_of(alloc, q.ty, types)?;
    Ok(Qualified {
        constant: q.constant,
        ty,
    })
}
