//! Counts of a unit, and their limits.
ghost use Rattle.std.specs.Prelude.{◌≡◌, ◌≤◌, ℕ, ◌+◌, ◌*◌, ◌/◌, Contains, MatchResult, IfOk};
ghost use Rattle.im_check_counts.specs.Heads.{heads_in};
ghost use Rattle.im_check_scopes.specs.Shape.{scopes_of};
ghost use Rattle.im_typed.specs.Limits.{static_bytes};
ghost use Rattle.im_typed.specs.ProgramOf.{program_of};
ghost use Rattle.im_rules_limits.specs.Limits as l;
ghost use Rattle.im_check.specs.Counts.{IsOverParameters, IsOverStatics, IsToldOf};

use crate::fault::CheckFault;
use im_check_counts::{Crowded, Head, first_crowded};
use im_check_scopes::Scope;
use im_num::{NoMemory, beyond_memory};
use im_typed::{Prog, Static};
use std::alloc::Global;

fn crowded(alloc: Global, function: Crowded<'_>) -> CheckFault
    ensures { IsToldOf function.entry result }
{
    match Vec::from_slice(alloc, function.name) {
        Ok(name) => CheckFault::Crowded {
            words: function.words,
            token: function.at,
            name,
        },
        Err(_) => CheckFault::OutOfMemory,
    }
}

/// Whether the parameters of no function take more than 8 words, by the types that the functions'
/// names have in these scopes.
pub fn are_few(alloc: Global, scope: &Scope, heads: &[Head]) -> Result<(), CheckFault>
    ensures { let g = scopes_of scope.now in let hs = heads_in heads.now in MatchResult result
        (λ _. (n : ℕ) → Contains (l.words_taken g hs) n → n ≤ 8) (IsOverParameters g hs) }
{
    match first_crowded(scope, heads)? {
        None => Ok(()),
        Some(function) => Err(crowded(alloc, function)),
    }
}

fn bytes_of(s: &Static) -> u64
    ensures { result ≡ (s.now.object.size + 1 + 3) / 4 * 4 }
{
    (u64::from(s.object.size) + 1 + 3) / 4 * 4
}

/// The bytes of all statics.
fn bytes_of_statics(prog: &Prog) -> Result<u64, NoMemory>
    ensures { IfOk result (λ n. n ≡ static_bytes (program_of prog.now).statics) }
{
    let mut total: u64 = 0;
    for s in &prog.statics {
        match total.checked_add(bytes_of(s)) {
            Some(sum) => total = sum,
            None => return Err(beyond_memory()),
        }
    }
    Ok(total)
}

/// Whether the statics are within their limit.
pub fn are_small(prog: &Prog) -> Result<(), CheckFault>
    ensures { MatchResult result (λ _. static_bytes (program_of prog.now).statics ≤ 1048576)
        (IsOverStatics (program_of prog.now)) }
{
    let bytes = bytes_of_statics(prog)?;
    if bytes <= 1048576 {
        Ok(())
    } else {
        Err(CheckFault::Statics { bytes })
    }
}
