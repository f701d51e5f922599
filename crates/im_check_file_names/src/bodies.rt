//! Functions that have a body (C11 6.9.1).
ghost use Rattle.std.specs.Prelude.{◌≡◌, ◌&&◌, MatchResult, IfErr};
ghost use Rattle.im_ctree.specs.Shape.{declarator_of};
ghost use Rattle.im_ctree.specs.Tree as t;
ghost use Rattle.im_ctype.specs.Types.{CType, function};
ghost use Rattle.im_check_declarators.specs.im_rules.Demands.{Meets};
ghost use Rattle.im_check_declarators.specs.im_rules.FileScope as f;
ghost use Rattle.im_check_declarators.specs.im_rules.Outline as o;
ghost use Rattle.im_check_declarators.specs.im_rules.Rules as u;
ghost use Rattle.im_check_declarators.specs.Shape.{declared_of};
ghost use Rattle.im_check_stop.specs.Answers.{IsRefusal};
ghost use Rattle.im_check_stop.specs.declared.stop.Stop.TheVariants.{Memory};
ghost use Rattle.im_check_declarators.specs.im_ctree_parts.Lists.{parameters_from, with_parameter};
ghost use Rattle.im_types.specs.Shape.{type_of, types_in};

use im_check_declarators::Declared;
use im_check_outline::{Neighbour, nearest};
use im_check_stop::{Stop, refused};
use im_ctree::{Core, Declarator, Parameter};
use im_types::{Type, is_function};

/// The parameters next to the name of a function.
pub fn own_parameters(d: &Declarator) -> &[Parameter]
    ensures { parameters_from result.now ≡ f.own_parameters (o.nearest (declarator_of d.now)) }
{
    match nearest(d) {
        Neighbour::Parameters(parameters) => parameters,
        Neighbour::Bare | Neighbour::Star | Neighbour::Length => &[],
    }
}

fn has_own_parameters(d: &Declarator) -> bool
    ensures { result ≡ f.has_own_parameters (o.nearest (declarator_of d.now)) }
{
    match nearest(d) {
        Neighbour::Parameters(_) => true,
        Neighbour::Bare | Neighbour::Star | Neighbour::Length => false,
    }
}

fn has_name(d: &Declarator) -> bool
    ensures { result ≡ u.parameter_is_named (t.a_declarator (declarator_of d.now)) }
{
    match &d.core {
        Core::Absent => false,
        Core::Name(_) => true,
        Core::Inner(inner) => has_name(inner),
    }
}

fn is_named(parameter: &Parameter) -> bool
    ensures { (rest : t.Parameters) → u.all_named (with_parameter parameter.now rest)
        ≡ (result && u.all_named rest) }
{
    match &parameter.declarator {
        None => false,
        Some(d) => has_name(d),
    }
}

fn all_named(parameters: &[Parameter]) -> bool
    ensures { result ≡ u.all_named (parameters_from parameters.now) }
{
    for parameter in parameters {
        if !is_named(parameter) {
            return false;
        }
    }
    true
}

fn is_none(parameters: &[Type]) -> bool
    ensures { (returned : CType) → result
        ≡ u.takes_nothing (function returned (types_in parameters.now)) }
{
    parameters.len() == 0
}

/// Whether it is a function without parameters.
fn takes_nothing(ty: &Type) -> bool
    ensures { result ≡ u.takes_nothing (type_of ty.now) }
{
    match ty {
        Type::Function(_, parameters) => is_none(parameters),
        Type::Void
        | Type::Integer(_)
        | Type::Pointer(_, _)
        | Type::Array(_, _)
        | Type::Unsized(_)
        | Type::Struct(_) => false,
    }
}

fn is_function_with_names(ty: &Type, parameters: &[Parameter]) -> bool
    ensures { result ≡ u.rule_11 (type_of ty.now) (parameters_from parameters.now) }
{
    is_function(ty) && (takes_nothing(ty) || all_named(parameters))
}

fn has_function(d: &Declarator, ty: &Type) -> bool
    ensures { result ≡ (f.has_own_parameters (o.nearest (declarator_of d.now))
        && u.rule_11 (type_of ty.now) (f.own_parameters (o.nearest (declarator_of d.now)))) }
{
    has_own_parameters(d) && is_function_with_names(ty, own_parameters(d))
}

/// Whether a body may stand behind a declarator, whose first token is that one: it is a function's
/// own, and its parameters have names (rule 11).
pub fn may_have_body(at: u32, d: &Declarator, y: &Declared) -> Result<(), Stop>
    ensures asked { let asked = f.body_asks (declarator_of d.now) (declared_of y.now) in
        MatchResult result (λ _. Meets asked) (IsRefusal asked at) }
    ensures spared { IfErr result (λ stop. stop ≡ Memory → ⊥) }
{
    if !has_function(d, &y.ty) {
        return Err(refused(11, at));
    }
    Ok(())
}
