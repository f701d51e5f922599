//! Enumeration constants (C11 6.7.2.2).
ghost use Rattle.std.specs.Prelude.{◌≡◌, ◌+ℤ◌, pos, true, Some, IfOk, MatchResult, OnOk, is_some};
ghost use Rattle.std.specs.Prelude.{IfErr};
ghost use Rattle.im_ctree.specs.Tree as t;
ghost use Rattle.im_ctree.specs.declared.specifier.Enumerator.{out-Enumerator};
ghost use Rattle.im_rules.specs.Declared as d;
ghost use Rattle.im_rules.specs.Demands.{Meets};
ghost use Rattle.im_rules.specs.FileScope as f;
ghost use Rattle.im_rules.specs.Rules as u;
ghost use Rattle.im_rules.specs.Scopes as s;
ghost use Rattle.im_rules.specs.TypedUnit.{AreEnumerators};
ghost use Rattle.im_rules.specs.UnitBreaks.{some_enumerators};
ghost use Rattle.im_rules_limits.specs.Limits.{IsFileWithin};
ghost use Rattle.im_check_scopes.specs.Shape.{scopes_of};
ghost use Rattle.im_check_stop.specs.Answers.{IsRefusal};
ghost use Rattle.im_check_stop.specs.declared.stop.Stop.TheVariants.{Memory};
ghost use Rattle.im_ctree_parts.specs.Lists.{maybe_from, with_enumerator, enumerators_from};
ghost use Rattle.im_check_file_place.specs.Files.{file_place_of};
ghost use Rattle.im_check_file_specifiers.specs.Answers.{IsFileFault};
ghost use Rattle.im_check_file_specifiers.specs.Enumerators.{IsNumbered, IsValueFault};
ghost use Rattle.im_check_file_specifiers.specs.Enumerators.{GoesOnEnumerators};

use im_check_expression_parts::constant_of;
use im_check_expressions::expression;
use im_check_file_place::File;
use im_check_scopes::{Entity, Scope};
use im_check_stop::{Stop, refused};
use im_check_texts::append_expression;
use im_ctree::{Enumerator, Expression};
use im_num::NoMemory;
use im_store::Number;
use std::alloc::Global;

/// A constant's number: what is written, or the one before it and 1; none where what is written is
/// no constant expression.
fn number(
    alloc: Global,
    value: &Option<Box<Expression>>,
    next: Number,
    file: &mut File,
) -> Result<Option<i128>, Stop>
    ensures { let e = maybe_from value.now in MatchResult result
        (IsNumbered (file_place_of file.old) next.value e (file_place_of file.new))
        (IsValueFault (file_place_of file.old) e) }
{
    match value {
        None => Ok(Some(next.value)),
        Some(e) => {
            let x = expression(alloc, e, &mut file.place)?;
            append_expression(alloc, e, &mut file.texts)?;
            Ok(constant_of(&x))
        }
    }
}

fn fits_int(z: i128) -> bool
    ensures { result ≡ u.rule_8_constant z }
{
    z >= -2147483648 && z < 2147483648
}

fn is_here(scope: &Scope, name: &[u8]) -> bool
    ensures { is_some (s.meaning_here (scopes_of scope.now) name.now) ≡ result }
{
    scope.meaning_here(name).is_some()
}

fn is_type(scope: &Scope, name: &[u8]) -> bool
    ensures { d.is_typedef_name (s.meaning (scopes_of scope.now) name.now) ≡ result }
{
    match scope.meaning(name) {
        Some(Entity::Typedef(_, _)) => true,
        _ => false,
    }
}

/// The value of a constant that may be declared here.
fn asked(scope: &Scope, at: u32, name: &[u8], z: Option<i128>) -> Result<Number, Stop>
    ensures asked { MatchResult result
        (λ n. (Meets (f.enumerator_asks (scopes_of scope.now) name.now z) × (z ≡ Some n.value))
        × (u.rule_8_constant n.value ≡ true))
        (IsRefusal (f.enumerator_asks (scopes_of scope.now) name.now z) at) }
    ensures spared { IfErr result (λ stop. stop ≡ Memory → ⊥) }
{
    let Some(n) = z else {
        return Err(refused(15, at));
    };
    if !fits_int(n) {
        return Err(refused(8, at));
    }
    if is_here(scope, name) {
        return Err(refused(3, at));
    }
    if is_type(scope, name) {
        return Err(refused(4, at));
    }
    Ok(Number { value: n })
}

/// Declares a constant.
fn declare(alloc: Global, name: &[u8], z: Number, scope: &mut Scope) -> Result<(), NoMemory>
    ensures { OnOk result (scopes_of scope.new
        ≡ s.named name.now (s.an_enumerator z.value) (scopes_of scope.old)) }
{
    let kept = Vec::from_slice(alloc, name)?;
    scope.declare(alloc, kept, Entity::Enumerator(z))
}

/// What is counted on from a constant.
fn after(z: Number) -> Number
    requires { u.rule_8_constant z.value ≡ true }
    ensures { result.value ≡ z.value +ℤ pos 1 }
{
    Number { value: z.value + 1 }
}

fn zero() -> Number
    ensures { result.value ≡ pos 0 }
{
    Number { value: 0 }
}

/// Declares a constant, where that number is its value if none is written; gives the number of the
/// next one.
fn enumerator(alloc: Global, e: &Enumerator, next: Number, file: &mut File) -> Result<Number, Stop>
    ensures { (rest : t.Enumerators) → let all = with_enumerator e.now rest in MatchResult result
        (λ then. GoesOnEnumerators (file_place_of file.old) next.value all then.value rest
        (file_place_of file.new))
        (IsFileFault (file_place_of file.old) (some_enumerators next.value all)) }
{
    let z = number(alloc, &e.value, next, file)?;
    let n = asked(&file.place.scope, e.at, &e.name, z)?;
    declare(alloc, &e.name, n, &mut file.place.scope)?;
    Ok(after(n))
}

/// Declares enumeration constants, in order.
pub fn enumerated(alloc: Global, enumerators: &[Enumerator], file: &mut File) -> Result<(), Stop>
    ensures { let es = enumerators_from enumerators.now in MatchResult result
        (λ _. AreEnumerators (file_place_of file.old) (pos 0) es (file_place_of file.new)
        × IsFileWithin (file_place_of file.old) (some_enumerators (pos 0) es))
        (IsFileFault (file_place_of file.old) (some_enumerators (pos 0) es)) }
{
    let mut next = zero();
    for e in enumerators {
        next = enumerator(alloc, e, next, file)?;
    }
    Ok(())
}
