//! What stands in suffixes (C11 6.7.6.2, 6.7.6.3).
ghost use Rattle.std.specs.Prelude.{MatchResult, ◌≡◌, ℕ};
ghost use Rattle.im_ctree.specs.Tree as t;
ghost use Rattle.im_check_expression_parts.specs.im_rules.Declared as d;
ghost use Rattle.im_check_expression_parts.specs.im_rules.Breaks.{some_suffixes};
ghost use Rattle.im_check_expression_parts.specs.im_rules.Strings.{strings_of_suffixes};
ghost use Rattle.im_ctree_parts.specs.Lists.{suffixes_from, with_suffix, maybe_from};
ghost use Rattle.im_check_declarators.specs.Suffixes.{AreGiven, IsFault};
ghost use Rattle.im_check_place.specs.Contexts.{context_of, behind_strings};
ghost use Rattle.im_check_expression_parts.specs.Walked.{GoesOnGiven};

use crate::expressions::expression;
use crate::formals::parameters;
use im_check_declarators::Given;
use im_check_expression_parts::constant_of;
use im_check_place::Place;
use im_check_stop::Stop;
use im_ctree::{Expression, Suffix, SuffixKind};
use std::alloc::Global;

/// What stands in suffixes, the first one first.
#[cycle(walk)]
pub(crate) fn given(
    alloc: Global,
    suffixes: &[Suffix],
    place: &mut Place,
) -> Result<Vec<Given>, Stop>
    ensures { let ss = suffixes_from suffixes.now in MatchResult result
        (λ gs. AreGiven (context_of place.old) ss gs.items
        × (place.new ≡ behind_strings (strings_of_suffixes ss) place.old))
        (λ stop. (q : d.Qualified) → IsFault (context_of place.old) (some_suffixes q ss) stop) }
{
    let mut done = Vec::new(alloc);
    for suffix in suffixes {
        let part = given_in(alloc, suffix, place)?;
        done.push(part)?;
    }
    Ok(done)
}

#[cycle(walk)]
fn given_in(alloc: Global, suffix: &Suffix, place: &mut Place) -> Result<Given, Stop>
    ensures { (rest : t.Suffixes) → let ss = with_suffix suffix.now.at suffix.now.kind rest in
        MatchResult result (λ g. GoesOnGiven place.old ss g rest place.new)
        (λ stop. (q : d.Qualified) → IsFault (context_of place.old) (some_suffixes q ss) stop) }
{
    match &suffix.kind {
        SuffixKind::Array(written) => written_length(alloc, written, place),
        SuffixKind::Function(written) => Ok(Given::Parameters(parameters(alloc, written, place)?)),
    }
}

/// The value of an array's length, if one is written.
#[cycle(walk)]
fn written_length(
    alloc: Global,
    written: &Option<Box<Expression>>,
    place: &mut Place,
) -> Result<Given, Stop>
    ensures { (at : ℕ) (rest : t.Suffixes) → let ss = t.array_suffix at (maybe_from written.now) rest in
        MatchResult result (λ g. GoesOnGiven place.old ss g rest place.new)
        (λ stop. (q : d.Qualified) → IsFault (context_of place.old) (some_suffixes q ss) stop) }
{
    match written {
        None => Ok(Given::Open),
        Some(e) => {
            let x = expression(alloc, e, place)?;
            Ok(Given::Length(constant_of(&x)))
        }
    }
}
