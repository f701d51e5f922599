//! Parameters (C11 6.7.6.3p7).
ghost use Rattle.std.specs.Prelude.{◌≡◌, ℕ, Bool, false, is_some, List, Option, MatchResult, IfOk};
ghost use Rattle.std.specs.Prelude.{OnOk, OnErr, IfErr};
ghost use Rattle.im_check_type_specifiers.specs.im_word.Words.{Name};
ghost use Rattle.im_ctype.specs.Types.{CType};
ghost use Rattle.im_rules.specs.Context.{Context};
ghost use Rattle.im_rules.specs.Declared as d;
ghost use Rattle.im_rules.specs.Demands.{Meets};
ghost use Rattle.im_rules.specs.Scopes as s;
ghost use Rattle.im_check_scopes.specs.Shape.{scopes_of};
ghost use Rattle.im_check_stop.specs.Answers.{IsRefusal};
ghost use Rattle.im_check_stop.specs.declared.stop.Stop.TheVariants.{Memory};
ghost use Rattle.im_types.specs.Shape.{type_of};
ghost use Rattle.im_check_type_specifiers.specs.Specified.{at_place};
ghost use Rattle.im_check_type_specifiers.specs.Tags.{IsGrown};
ghost use Rattle.im_check_declarators.specs.Shape.{declared_of, name_of, object_by};

use crate::declared::Declared;
use crate::sized::is_sized;
use im_check_scopes::{Entity, Scope, Storage};
use im_check_stop::{Stop, refused};
use im_ctree::Name;
use im_num::NoMemory;
use im_types::{Type, copy};
use std::alloc::Global;

fn unchanged(name: Option<Name>, constant: bool, ty: Type) -> Declared
    ensures { result ≡ record { name = name; constant = constant; ty = ty } }
{
    Declared { name, constant, ty }
}

/// A parameter as it is declared: an array becomes a pointer.
pub fn adjusted(declared: Declared) -> Declared
    ensures { declared_of result ≡ d.parameter (declared_of declared) }
{
    let Declared { name, constant, ty } = declared;
    match &ty {
        Type::Array(_, _) | Type::Unsized(_) => unchanged(name, false, ty.into_pointer(constant)),
        Type::Void
        | Type::Integer(_)
        | Type::Pointer(_, _)
        | Type::Struct(_)
        | Type::Function(_, _) => unchanged(name, constant, ty),
    }
}

fn is_here(scope: &Scope, name: &[u8]) -> bool
    ensures { result ≡ is_some (s.meaning_here (scopes_of scope.now) name.now) }
{
    scope.meaning_here(name).is_some()
}

fn is_type(scope: &Scope, name: &[u8]) -> bool
    ensures { result ≡ d.is_typedef_name (s.meaning (scopes_of scope.now) name.now) }
{
    match scope.meaning(name) {
        Some(Entity::Typedef(_, _)) => true,
        _ => false,
    }
}

/// What is asked of a parameter's name.
fn name_asked(scope: &Scope, at: u32, name: &Option<Name>) -> Result<(), Stop>
    requires { s.at_file_scope (scopes_of scope.now) ≡ false }
    ensures asked { (constant : Bool) (ty : CType) (number : ℕ) → let asked =
        d.declared_asks (name_of name.now) (s.an_object constant ty (s.local_object number))
        (scopes_of scope.now) in
        MatchResult result (λ u. Meets asked) (IsRefusal asked at) }
    ensures spared { IfErr result (λ stop. stop ≡ Memory → ⊥) }
{
    let Some(x) = name else {
        return Ok(());
    };
    if is_here(scope, x) {
        return Err(refused(3, at));
    }
    if is_type(scope, x) {
        return Err(refused(4, at));
    }
    Ok(())
}

fn asked(scope: &Scope, at: u32, declared: &Declared) -> Result<(), Stop>
    requires { s.at_file_scope (scopes_of scope.now) ≡ false }
    ensures asked { (k : Context) (lists : List (Option Name)) (number : ℕ)
        → let asks = d.parameter_asks (at_place k scope.now lists) number (declared_of declared.now) in
        MatchResult result (λ u. Meets asks) (IsRefusal asks at) }
    ensures spared { IfErr result (λ stop. stop ≡ Memory → ⊥) }
{
    if !is_sized(&declared.ty) {
        return Err(refused(6, at));
    }
    name_asked(scope, at, &declared.name)
}

/// Declares the name of a parameter.
fn declare(
    alloc: Global,
    scope: &mut Scope,
    number: u32,
    declared: &Declared,
) -> Result<(), NoMemory>
    ensures scopes { OnOk result (scopes_of scope.new ≡ d.with_name (declared_of declared.now).name
        (object_by number (declared_of declared.now)) (scopes_of scope.old)) }
    ensures grown { OnOk result (IsGrown scope.old scope.new) }
    ensures unchanged { OnErr result (scope.new ≡ scope.old) }
{
    let Some(name) = &declared.name else {
        return Ok(());
    };
    let known = Vec::from_slice(alloc, name)?;
    let ty = copy(alloc, &declared.ty)?;
    let object = Entity::Object(declared.constant, ty, Storage::Local(number));
    scope.declare(alloc, known, object)
}

/// The parameter of that number, by what its declarator declares; its name is in scope behind it.
/// `at` is the token at which it is refused.
pub fn parameter(
    alloc: Global,
    scope: &mut Scope,
    number: u32,
    at: u32,
    declared: Declared,
) -> Result<Declared, Stop>
    requires { s.at_file_scope (scopes_of scope.old) ≡ false }
    ensures asked { (k : Context) (lists : List (Option Name)) → let asks =
        d.parameter_asks (at_place k scope.old lists) number (d.parameter (declared_of declared)) in
        MatchResult result (λ p. Meets asks) (IsRefusal asks at) }
    ensures adjusted { IfOk result (λ p. declared_of p ≡ d.parameter (declared_of declared)) }
    ensures scopes { (k : Context) (lists : List (Option Name)) → OnOk result
        (scopes_of scope.new ≡ (d.with_parameter number (d.parameter (declared_of declared))
        (at_place k scope.old lists)).scopes) }
    ensures grown { OnOk result (IsGrown scope.old scope.new) }
    ensures unchanged { OnErr result (scope.new ≡ scope.old) }
{
    let p = adjusted(declared);
    asked(scope, at, &p)?;
    declare(alloc, scope, number, &p)?;
    Ok(p)
}
