//! Calls (C11 6.5.2.2), of which the arguments are typed.
ghost use Rattle.std.specs.Prelude.{◌≡◌, Bool, false, true, length, Some, IfOk, IsTrue};
ghost use Rattle.std.specs.Prelude.{MatchOption};
ghost use Rattle.im_ctype.specs.Table.{Table, structs_of};
ghost use Rattle.im_ctype.specs.Types as t;
ghost use Rattle.im_typed.specs.Program as p;
ghost use Rattle.im_ctree.specs.Shape.{expression_of};
ghost use Rattle.im_check_conversions.specs.im_rules.Conversions as c;
ghost use Rattle.im_check_conversions.specs.im_rules.Demands as d;
ghost use Rattle.im_check_conversions.specs.im_rules.Rules.{rule_19};
ghost use Rattle.im_check_conversions.specs.im_rules.Scopes as s;
ghost use Rattle.im_check_conversions.specs.im_rules.Terms as r;
ghost use Rattle.im_types.specs.Shape.{type_of, types_in};
ghost use Rattle.im_typed.specs.ProgramOf.{expr_of};
ghost use Rattle.im_check_scopes.specs.Shape.{callee_of, entity_of, scopes_of};
ghost use Rattle.im_check_operands.specs.Shape.{value_in};
ghost use Rattle.im_check_operands.specs.Answers.{IsMade};
ghost use Rattle.im_check_name_forms.specs.Lists.{exprs_from, terms_in};

use crate::arguments::{all_fit, converted};
use im_check_conversions::of_variable;
use im_check_operands::{Term, Value};
use im_check_scopes::{Callee, Entity, Scope};
use im_check_stop::{Stop, refused};
use im_ctree::{Expression, ExpressionKind};
use im_ctype::TypeTable;
use im_num::NoMemory;
use im_typed::Expr;
use im_types::{Type, copy};
use std::alloc::Global;

fn is_function(entity: &Entity) -> bool
    ensures { result ≡ d.is_function_meant (Some (entity_of entity.now)) }
{
    match entity {
        Entity::Function(_, _, _) => true,
        Entity::Object(_, _, _) | Entity::Enumerator(_) | Entity::Typedef(_, _) => false,
    }
}

/// The function that an expression names, if it names one.
pub fn callee_in<'a>(scope: &'a Scope, e: &Expression) -> Option<&'a Entity>
    ensures { MatchOption result (d.is_function_meant
        (d.callee_of (scopes_of scope.now) (expression_of e.now.at e.now.kind)) ≡ false) (λ f.
        (d.callee_of (scopes_of scope.now) (expression_of e.now.at e.now.kind)
        ≡ Some (entity_of f.now)) ×
        (d.is_function_meant (Some (entity_of f.now)) ≡ true)) }
{
    match &e.kind {
        ExpressionKind::Identifier(name) => match scope.meaning(name) {
            Some(entity) => {
                if is_function(entity) {
                    Some(entity)
                } else {
                    None
                }
            }
            None => None,
        },
        _ => None,
    }
}

fn first_of(arguments: Vec<Expr>) -> Expr
    ensures { (types : Table) → expr_of types result
        ≡ c.first_of (exprs_from types arguments.items) }
{
    match arguments.into_iter().next() {
        Some(argument) => argument,
        None => Expr::Null,
    }
}

/// A call of a function of the unit, by its number.
fn call(ty: Type, function: u32, arguments: Vec<Expr>) -> Value
    ensures { (types : Table) → value_in types result ≡ record
        { type = type_of ty; expr = p.Call function (exprs_from types arguments.items) } }
{
    of_variable(ty, Expr::Call(function, arguments))
}

/// What a call of a function gives, by its body.
fn called(alloc: Global, ty: Type, callee: Callee, arguments: Vec<Expr>) -> Result<Value, NoMemory>
    ensures { (types : Table) → IfOk result (λ v. value_in types v ≡ record {
      type = type_of ty;
      expr = c.call_by (callee_of callee) (exprs_from types arguments.items);
    }) }
{
    match callee {
        Callee::Body(n) => Ok(call(ty, n, arguments)),
        Callee::Service(service) => {
            if arguments.is_empty() {
                return Ok(of_variable(ty, Expr::Serve(service)));
            }
            let operand = Box::new(alloc, first_of(arguments))?;
            Ok(of_variable(ty, Expr::ServeWith(service, operand)))
        }
        Callee::NoBody => Ok(of_variable(ty, Expr::Null)),
    }
}

fn has_body(callee: Callee) -> bool
    ensures { (constant : Bool) (ty : t.CType) → result
        ≡ d.is_function_defined (Some (s.a_function (callee_of callee) constant ty)) }
{
    match callee {
        Callee::NoBody => false,
        Callee::Body(_) | Callee::Service(_) => true,
    }
}

/// Whether so many arguments stand there as parameters.
fn takes(parameters: &[Type], arguments: &[Term]) -> bool
    ensures value { (types : Table) (f : s.Callee) (constant : Bool) (returned : t.CType)
        → result ≡ rule_19
        (Some (s.a_function f constant (t.function returned (types_in parameters.now))))
        (length (terms_in types arguments.now)) }
    ensures same { IsTrue result → length parameters.now ≡ length arguments.now }
{
    arguments.len() == parameters.len()
}

/// What a call gives whose arguments fit.
fn call_value(
    alloc: Global,
    table: &TypeTable,
    callee: Callee,
    returned: &Type,
    parameters: &[Type],
    arguments: Vec<Term>,
) -> Result<Value, NoMemory>
    requires { length parameters.now ≡ length arguments.items }
    ensures { (constant : Bool)
        → IfOk result (λ v. value_in table.now v ≡ c.call_of (structs_of table.now)
        (Some (s.a_function (callee_of callee) constant
        (t.function (type_of returned.now) (types_in parameters.now))))
        (terms_in table.now arguments.items)) }
{
    let exprs = converted(alloc, table, parameters, arguments)?;
    let ty = copy(alloc, returned)?;
    called(alloc, ty, callee, exprs)
}

fn function_term(
    alloc: Global,
    table: &TypeTable,
    at: u32,
    callee: Callee,
    returned: &Type,
    parameters: &[Type],
    arguments: Vec<Term>,
) -> Result<Term, Stop>
    ensures { (constant : Bool)
        → IsMade table.now (d.call_asks (Some (s.a_function (callee_of callee) constant
        (t.function (type_of returned.now) (types_in parameters.now))))
        (terms_in table.now arguments.items)) (r.value (c.call_of (structs_of table.now)
        (Some (s.a_function (callee_of callee) constant
        (t.function (type_of returned.now) (types_in parameters.now))))
        (terms_in table.now arguments.items))) at result }
{
    if !takes(parameters, &arguments) {
        return Err(refused(19, at));
    }
    if !has_body(callee) {
        return Err(refused(12, at));
    }
    if !all_fit(parameters, &arguments) {
        return Err(refused(17, at));
    }
    let value = call_value(alloc, table, callee, returned, parameters, arguments)?;
    Ok(Term::Value(value))
}

fn typed_call(
    alloc: Global,
    table: &TypeTable,
    at: u32,
    callee: Callee,
    ty: &Type,
    arguments: Vec<Term>,
) -> Result<Term, Stop>
    ensures { (constant : Bool) → IsMade table.now (d.call_asks
        (Some (s.a_function (callee_of callee) constant (type_of ty.now)))
        (terms_in table.now arguments.items)) (r.value (c.call_of (structs_of table.now)
        (Some (s.a_function (callee_of callee) constant (type_of ty.now)))
        (terms_in table.now arguments.items))) at result }
{
    match ty {
        Type::Function(returned, parameters) => {
            function_term(alloc, table, at, callee, returned, parameters, arguments)
        }
        Type::Void
        | Type::Integer(_)
        | Type::Pointer(_, _)
        | Type::Array(_, _)
        | Type::Unsized(_)
        | Type::Struct(_) => Err(refused(19, at)),
    }
}

/// A call of a function with these arguments.
pub fn call_term(
    alloc: Global,
    table: &TypeTable,
    at: u32,
    function: &Entity,
    arguments: Vec<Term>,
) -> Result<Term, Stop>
    ensures { IsMade table.now (d.call_asks (Some (entity_of function.now))
        (terms_in table.now arguments.items)) (r.value (c.call_of (structs_of table.now)
        (Some (entity_of function.now)) (terms_in table.now arguments.items))) at result }
{
    match function {
        Entity::Function(callee, _, ty) => typed_call(alloc, table, at, *callee, ty, arguments),
        Entity::Object(_, _, _) | Entity::Enumerator(_) | Entity::Typedef(_, _) => {
            Err(refused(19, at))
        }
    }
}
