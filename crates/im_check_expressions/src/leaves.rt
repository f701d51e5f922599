//! What stands in no cycle: string literals, and calls whose arguments are typed.
ghost use Rattle.std.specs.Prelude.{◌≡◌, ◌+◌, ◌≤◌, ℕ, length, true, MatchResult, IfErr};
ghost use Rattle.im_check_expression_parts.specs.im_ctype.Table.{structs_of};
ghost use Rattle.im_ctree.specs.Tree as t;
ghost use Rattle.im_check_expression_parts.specs.im_rules.Conversions as c;
ghost use Rattle.im_check_expression_parts.specs.im_rules.Demands as d;
ghost use Rattle.im_check_expression_parts.specs.im_rules.Terms as r;
ghost use Rattle.im_check_expression_parts.specs.im_rules_limits.Limits.{size_limit};
ghost use Rattle.im_check_scopes.specs.Shape.{scopes_of};
ghost use Rattle.im_check_expression_parts.specs.im_check_sizes.Sizes.{IsTooLarge};
ghost use Rattle.im_check_stop.specs.declared.stop.Stop.TheVariants.{Memory};
ghost use Rattle.im_ctree_parts.specs.Lists.{expression_in};
ghost use Rattle.im_check_operands.specs.Answers.{IsMade};
ghost use Rattle.im_check_expression_parts.specs.Walked.{IsTyped, terms_in};

use im_check_name_forms::{call_term, callee_in, string_term};
use im_check_operands::Term;
use im_check_place::Place;
use im_check_scopes::Scope;
use im_check_stop::{Stop, refused};
use im_ctree::Expression;
use std::alloc::Global;

/// Whether a string literal is within the limit of sizes with its null character.
fn text_fits(bytes: &[u8]) -> Result<(), Stop>
    ensures fits { let size = length bytes.now + 1 in
        MatchResult result (λ _. size ≤ size_limit) (IsTooLarge size) }
    ensures spared { IfErr result (λ stop. stop ≡ Memory → ⊥) }
{
    let size = bytes.len() as u64 + 1;
    if size > 1_048_576 {
        return Err(Stop::Large { bytes: size });
    }
    Ok(())
}

/// A string literal (C11 6.4.5).
#[inline(never)]
pub(crate) fn text(alloc: Global, bytes: &[u8], place: &mut Place) -> Result<Term, Stop>
    ensures { (at : ℕ) → IsTyped place.old (t.string_literal at bytes.now) place.new result }
{
    text_fits(bytes)?;
    let term = string_term(alloc, place.next_string, bytes)?;
    place.pass_string()?;
    Ok(term)
}

/// Whether an expression is a function's name.
pub(crate) fn names_function(scope: &Scope, e: &Expression) -> bool
    ensures { result ≡ d.is_function_meant (d.callee_of (scopes_of scope.now) (expression_in e.now)) }
{
    callee_in(scope, e).is_some()
}

/// A call of the function that an expression names.
pub(crate) fn called(
    alloc: Global,
    place: &Place,
    at: u32,
    callee: &Expression,
    arguments: Vec<Term>,
) -> Result<Term, Stop>
    requires { d.is_function_meant
        (d.callee_of (scopes_of place.now.scope) (expression_in callee.now)) ≡ true }
    ensures { let types = place.now.structs in
        let f = d.callee_of (scopes_of place.now.scope) (expression_in callee.now) in
        let xs = terms_in types arguments.items in
        IsMade types (d.call_asks f xs) (r.value (c.call_of (structs_of types) f xs)) at result }
{
    match callee_in(&place.scope, callee) {
        Some(function) => call_term(alloc, place.structs.table(), at, function, arguments),
        None => unreachable!(),
    }
}

/// What is no function's name isn't called.
pub(crate) fn not_called(at: u32, _x: Term, _xs: Vec<Term>) -> Stop
    ensures { result ≡ Stop.Rule 19 at }
{
    refused(19, at)
}
