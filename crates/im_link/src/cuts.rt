ghost use Rattle.std.specs.Prelude.{◌≡◌, ◌+◌, ◌<◌, ◌≤◌, ◌++◌, ◌∷◌, [], List, length, nat_eq};
ghost use Rattle.std.specs.Prelude.{IfSome, OnOk};
ghost use Rattle.std.specs.HashMap as hash;
ghost use Rattle.im_rv.specs.Code.{address};
ghost use Rattle.im_rv.specs.declared.code.Part.{Part as CodePart};
ghost use Rattle.im_link.specs.Parts.{word_count};
ghost use Rattle.im_link.specs.State.{AreAccessesOf, AreAccessesInside, IsNamedAt, IsCauseBy};
ghost use Rattle.im_link.specs.State.{AddsCutOf, AreFirstCuts};
ghost use Rattle.im_link.specs.Code.{AreDependencesNamed};

use crate::places::{Accesses, accesses_of, find_access};
use im_num::{Cause, NoMemory};
use im_rv::{Cut, Part};
use std::alloc::Global;

// The address of an access of a part whose first word has the number `first`.
fn access_address(accesses: &Accesses, first: usize, access: u64) -> u64
    requires { AreAccessesInside (hash.get nat_eq accesses.now) first }
    ensures { IfSome (hash.get nat_eq accesses.now access) (λ k. result ≡ address (first + k)) }
{
    match find_access(accesses, access) {
        None => 0,
        Some(line) => 4096 + 4 * ((first + line) as u64),
    }
}

// A cause with the accesses of a dependence named by their addresses.
fn placed_cause(cause: Cause, accesses: &Accesses, first: usize) -> Cause
    requires { AreAccessesInside (hash.get nat_eq accesses.now) first }
    ensures { IsCauseBy (hash.get nat_eq accesses.now) first cause result }
{
    match cause {
        Cause::Dep { read, write } => Cause::Dep {
            read: access_address(accesses, first, read),
            write: access_address(accesses, first, write),
        },
        other => other,
    }
}

// Adds the cut of line k of a part, if it has a cause.
fn push_cut(
    cuts: &mut Vec<Cut>,
    part: &Part,
    accesses: &Accesses,
    first: usize,
    k: usize,
) -> Result<(), NoMemory>
    requires inside { k < length part.now.lines.items }
    requires room { first + length part.now.lines.items ≤ 261120 }
    requires accesses { AreAccessesOf part.now.lines.items (length part.now.lines.items)
        (hash.get nat_eq accesses.now) }
    ensures { OnOk result (IsNamedAt part.now k
        → AddsCutOf part.now first k cuts.old.items cuts.new.items) }
{
    if let Some(cause) = part.lines[k].cause {
        cuts.push(Cut {
            at: 4096 + 4 * ((first + k) as u32),
            function: part.name.clone()?,
            cause: placed_cause(cause, accesses, first),
        })?;
    }
    Ok(())
}

/// Adds the cuts of a part, whose first word has the number `first`.
pub fn push_cuts(
    alloc: Global,
    cuts: &mut Vec<Cut>,
    part: &Part,
    first: usize,
) -> Result<(), NoMemory>
    requires { first + length part.now.lines.items ≤ 261120 }
    ensures { OnOk result ((parts : List CodePart) → first ≡ word_count parts
        → AreDependencesNamed (parts ++ part.now ∷ []) → AreFirstCuts parts first cuts.old.items
        → AreFirstCuts (parts ++ part.now ∷ []) (first + length part.now.lines.items)
        cuts.new.items) }
{
    let accesses = accesses_of(alloc, &part.lines)?;
    for k in 0..part.lines.len() {
        push_cut(cuts, part, &accesses, first, k)?;
    }
    Ok(())
}
