ghost use Rattle.std.specs.Prelude.{◌≡◌, ◌<◌, ◌^◌, length, MatchResult};
ghost use Rattle.im_ctree.specs.Tree as t;
ghost use Rattle.im_ctree.specs.Shape.{tree_of};
ghost use Rattle.im_driver.specs.Refused.{IsRefusedFor};
ghost use Rattle.im_check_counts.specs.Derivations.{derived_as, derived_names, IsFirstDeep};
ghost use Rattle.im_check_counts.specs.Derivations.{IsShallowUnit};
ghost use Rattle.im_driver.specs.Steps.{IsReady, IsTooDeep, declared_at, refused_at};

use crate::laws::{program_law, written_law};
use crate::refused::{Refused, whole};
use im_check::{CheckFault, check};
use im_check_counts::{Deep, first_deep};
use im_ctree::{Name, Tree};
use im_fault::{LineFault, Quantity, SourceFault, Subject};
use im_front::{Text, place_of, read_source};
use im_typed::Prog;
use std::alloc::Global;

// A quantity of what is declared at a token is over its limit.
fn declared(
    source: &[u8],
    spans: &[(u32, u32)],
    quantity: Quantity,
    count: u64,
    token: u32,
    name: Name,
) -> Refused
    requires { length source.now < 2 ^ 31 }
    ensures { result ≡ declared_at source.now spans.now quantity count token name }
{
    Refused {
        fault: SourceFault::Limit { quantity, count },
        subject: Subject::Declared(place_of(source, spans, token), name),
    }
}

// Why a source has no program; these are the bytes of its tokens.
fn untyped(source: &[u8], spans: &[(u32, u32)], fault: CheckFault) -> Refused
    requires { length source.now < 2 ^ 31 }
    ensures { result ≡ refused_at source.now spans.now fault }
{
    match fault {
        CheckFault::Rule { number, token } => whole(SourceFault::Line {
            place: place_of(source, spans, token),
            why: LineFault::Rule(number),
        }),
        CheckFault::Crowded { words, token, name } => {
            declared(source, spans, Quantity::Parameters, words, token, name)
        }
        CheckFault::Large { bytes, token, name } => {
            declared(source, spans, Quantity::Size, bytes, token, name)
        }
        CheckFault::Statics { bytes } => whole(SourceFault::Limit {
            quantity: Quantity::Statics,
            count: bytes,
        }),
        CheckFault::OutOfMemory => whole(SourceFault::OutOfMemory),
    }
}

// This typedef name stands for too many derivations.
fn deep(alloc: Global, source: &[u8], spans: &[(u32, u32)], x: Deep<'_>) -> Refused
    requires { length source.now < 2 ^ 31 }
    ensures { (u : t.Tree) → IsFirstDeep (derived_names u) (derived_as x.entry)
        → IsTooDeep source.now spans.now u result }
{
    match Vec::from_slice(alloc, x.name) {
        Ok(name) => Refused {
            fault: SourceFault::Limit {
                quantity: Quantity::Derivations,
                count: x.count as u64,
            },
            subject: Subject::Declared(place_of(source, spans, x.at), name),
        },
        Err(_) => whole(SourceFault::OutOfMemory),
    }
}

// Whether each typedef name stands for few enough derivations, so that typing goes no deeper.
fn shallow(alloc: Global, source: &[u8], spans: &[(u32, u32)], tree: &Tree) -> Result<(), Refused>
    requires { length source.now < 2 ^ 31 }
    ensures { MatchResult result (λ _. IsShallowUnit (tree_of tree.now))
        (IsTooDeep source.now spans.now (tree_of tree.now)) }
{
    let found = match first_deep(alloc, tree) {
        Ok(found) => found,
        Err(_) => return Err(whole(SourceFault::OutOfMemory)),
    };
    match found {
        None => Ok(()),
        Some(x) => Err(deep(alloc, source, spans, x)),
    }
}

/// The typed program of a source, or why it has none. Tokens and tree are given back before its
/// end.
pub(crate) fn typed_program(alloc: Global, source: &[u8]) -> Result<Prog, Refused>
    ensures { MatchResult result (IsReady source.now) (IsRefusedFor source.now) }
{
    written_law();
    program_law();
    let Text { spans, tree } = match read_source(alloc, source) {
        Ok(text) => text,
        Err(fault) => return Err(whole(fault)),
    };
    match shallow(alloc, source, &spans, &tree) {
        Ok(()) => {}
        Err(refused) => return Err(refused),
    }
    match check(alloc, tree) {
        Ok(prog) => Ok(prog),
        Err(fault) => Err(untyped(source, &spans, fault)),
    }
}
