//! The parameters of functions (C11 6.7.6.3).
ghost use Rattle.std.specs.Prelude.{MatchResult, ◌≡◌, false, map};
ghost use Rattle.im_ctree.specs.Tree as t;
ghost use Rattle.im_check_expression_parts.specs.im_rules.Breaks.{parameter_token, some_parameters};
ghost use Rattle.im_check_expression_parts.specs.im_rules.Context as k;
ghost use Rattle.im_check_expression_parts.specs.im_rules.Declared as d;
ghost use Rattle.im_check_expression_parts.specs.im_rules.Scopes.{at_file_scope};
ghost use Rattle.im_check_expression_parts.specs.im_rules.Strings.{strings_of_parameters};
ghost use Rattle.im_check_expression_parts.specs.im_rules.Typed.{AreParameters};
ghost use Rattle.im_check_expression_parts.specs.im_rules_limits.Limits.{IsWithin};
ghost use Rattle.im_check_scopes.specs.Shape.{scopes_of};
ghost use Rattle.im_ctree_parts.specs.Lists.{declarator_from, parameters_from, with_parameter};
ghost use Rattle.im_check_declarators.specs.Shape.{declared_of};
ghost use Rattle.im_check_declarators.specs.Suffixes.{IsFault};
ghost use Rattle.im_check_place.specs.Contexts.{context_of, behind_strings};
ghost use Rattle.im_check_expression_parts.specs.Walked.{IsBehind, GoesOnParameters};

use crate::declarators::declarator_if_any;
use im_check_declarators::{Declared, parameter};
use im_check_place::Place;
use im_check_stop::Stop;
use im_check_type_specifiers::{mention, specified_type};
use im_ctree::{Declarator, Parameter};
use im_num::beyond_memory;
use std::alloc::Global;

/// The parameters of a function, as they are declared in a scope of their own, which ends with
/// them.
#[cycle(walk)]
pub fn parameters(
    alloc: Global,
    written: &[Parameter],
    place: &mut Place,
) -> Result<Vec<Declared>, Stop>
    ensures { let ps = parameters_from written.now in
        let c = k.in_new_scope (context_of place.old) in
        MatchResult result (λ ds. AreParameters c 0 ps (map declared_of ds.items)
        × (place.new ≡ behind_strings (strings_of_parameters ps) place.old)
        × IsWithin c (some_parameters 0 ps))
        (IsFault c (some_parameters 0 ps)) }
{
    let mark = place.scope.mark();
    place.scope.open()?;
    let declared = parameters_here(alloc, written, place)?;
    place.scope.close(mark);
    Ok(declared)
}

/// The parameters of a function, as they are declared in the innermost scope, where they stay: the
/// body of a function stands in it (C11 6.2.1p4). The file's own scope has none.
#[cycle(walk)]
pub fn parameters_here(
    alloc: Global,
    written: &[Parameter],
    place: &mut Place,
) -> Result<Vec<Declared>, Stop>
    requires { at_file_scope (scopes_of place.old.scope) ≡ false }
    ensures { let ps = parameters_from written.now in MatchResult result
        (λ ds. AreParameters (context_of place.old) 0 ps (map declared_of ds.items)
        × (scopes_of place.new.scope ≡ (d.with_parameters 0 ps (map declared_of ds.items)
        (context_of place.old)).scopes)
        × IsBehind (strings_of_parameters ps) place.old place.new
        × IsWithin (context_of place.old) (some_parameters 0 ps))
        (IsFault (context_of place.old) (some_parameters 0 ps)) }
{
    let mut done = Vec::new(alloc);
    let mut number = 0u32;
    for one in written {
        let declared = parameter_here(alloc, number, one, place)?;
        done.push(declared)?;
        let Some(next) = number.checked_add(1) else {
            return Err(Stop::from(beyond_memory()));
        };
        number = next;
    }
    Ok(done)
}

/// The token at which a parameter is refused: the first one of its declarator, or its own where it
/// has none.
fn token_of(first: u32, declarator: &Option<Box<Declarator>>) -> u32
    ensures { result ≡ parameter_token first (declarator_from declarator.now) }
{
    match declarator {
        None => first,
        Some(d) => d.at,
    }
}

#[cycle(walk)]
fn parameter_here(
    alloc: Global,
    number: u32,
    one: &Parameter,
    place: &mut Place,
) -> Result<Declared, Stop>
    requires { at_file_scope (scopes_of place.old.scope) ≡ false }
    ensures { (rest : t.Parameters) → let ps = with_parameter one.now rest in
        MatchResult result (λ y. GoesOnParameters place.old number ps (declared_of y) rest place.new)
        (IsFault (context_of place.old) (some_parameters number ps)) }
{
    let at = one.specifiers.at;
    let q = specified_type(
        alloc,
        &place.scope,
        &place.outline.lists,
        at,
        &one.specifiers.items,
    )?;
    mention(
        alloc,
        &mut place.scope,
        &place.outline.lists,
        &one.specifiers.items,
    )?;
    let declared = declarator_if_any(alloc, q, &one.declarator, place)?;
    let token = token_of(at, &one.declarator);
    parameter(alloc, &mut place.scope, number, token, declared)
}
