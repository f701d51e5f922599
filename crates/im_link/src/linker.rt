ghost use Rattle.std.specs.Prelude.{◌≡◌, ◌≢◌, ◌+◌, ◌<◌, ◌≤◌, ◌++◌, ◌∷◌, [], true, false, List};
ghost use Rattle.std.specs.Prelude.{length, IfErr, MatchResult, OnOk, Err};
ghost use Rattle.im_rv.specs.declared.code.Part.{Part as CodePart};
ghost use Rattle.im_link.specs.Parts.{byte_count};
ghost use Rattle.im_link.specs.Code.{IsLinkable, IsLinked, IsFaultOf, byte_limit, told_count};
ghost use Rattle.im_link.specs.Linking.{Holds, HoldsLinkable, AreKept};

use crate::aim::Aim;
use crate::cuts::push_cuts;
use crate::fault::LinkFault;
use crate::places::Places;
use crate::words::{aim_words, push_lines};
use im_num::NoMemory;
use im_rv::{Code, Cut, Part};
use std::alloc::Global;
use std::collections::HashMap;

/// The most words that a code may have.
pub const MOST_WORDS: u64 = 261120;

/// Parts that are put in their places one after another, from 0x1000 on.
#[derive(Drop)]
pub struct Linker {
    /// A word for each line; that of a line with a target is made when all labels have a place.
    pub words: Vec<u32>,
    /// The lines with a target, in order.
    pub aims: Vec<Aim>,
    /// The number of the line that each label stands at.
    pub places: Places,
    /// The cuts, by address.
    pub cuts: Vec<Cut>,
    /// The address of the last part's first word.
    pub entry: u32,
    /// How many lines the parts have together; 2^64 - 1 where it is more. Where a code may not have
    /// so many, the other fields have not all of them.
    pub count: u64,
}

impl Linker {
    /// No part.
    pub fn new(alloc: Global) -> Linker
        ensures { Holds result [] }
    {
        Linker {
            words: Vec::new(alloc),
            aims: Vec::new(alloc),
            places: HashMap::new(alloc),
            cuts: Vec::new(alloc),
            entry: 4096,
            count: 0,
        }
    }

    /// Puts a part behind the others.
    pub fn add(&mut self, alloc: Global, part: &Part) -> Result<(), NoMemory>
        ensures { OnOk result ((parts : List CodePart) → Holds self.old parts
            → Holds self.new (parts ++ part.now ∷ [])) }
    {
        let first = self.words.len();
        let lines = part.lines.len();
        self.count = self.count.saturating_add(lines as u64);
        if is_over(first, lines) {
            return Ok(());
        }
        keep(alloc, self, part, first)?;
        Ok(())
    }

    /// The code of all parts.
    pub fn finish(self) -> Result<Code, LinkFault>
        requires { HoldsLinkable self }
        ensures code { (parts : List CodePart) → Holds self parts → IsLinkable parts
            → MatchResult result (IsLinked parts) (IsFaultOf parts) }
        ensures limit { (parts : List CodePart) → Holds self parts → byte_limit < byte_count parts
            → result ≡ Err (LinkFault.Limit (told_count parts)) }
        ensures fault { IfErr result (λ fault. fault ≢ LinkFault.OutOfMemory) }
    {
        if self.count > MOST_WORDS {
            return Err(LinkFault::Limit(self.count.saturating_mul(4)));
        }
        let Linker {
            mut words,
            aims,
            places,
            mut cuts,
            entry,
            ..
        } = self;
        aim_words(&mut words, &aims, &places);
        words.shrink_to_fit();
        cuts.shrink_to_fit();
        Ok(Code { words, entry, cuts })
    }
}

// Whether a code has no room for so many lines behind its words.
fn is_over(words: usize, lines: usize) -> bool
    ensures over { result ≡ true → 261120 < words + lines }
    ensures room { result ≡ false → words + lines ≤ 261120 }
{
    (words as u64).saturating_add(lines as u64) > MOST_WORDS
}

// Adds a part, where all that were before have their places, and it has room.
fn keep(alloc: Global, linker: &mut Linker, part: &Part, first: usize) -> Result<(), NoMemory>
    requires first { first ≡ length linker.old.words.items }
    requires room { first + length part.now.lines.items ≤ 261120 }
    ensures kept { OnOk result ((parts : List CodePart) → AreKept linker.old parts
        → AreKept linker.new (parts ++ part.now ∷ [])) }
    ensures count { linker.new.count ≡ linker.old.count }
{
    linker.entry = 4096 + 4 * (first as u32);
    push_lines(
        &mut linker.words,
        &mut linker.aims,
        &mut linker.places,
        &part.lines,
    )?;
    push_cuts(alloc, &mut linker.cuts, part, first)?;
    Ok(())
}
