ghost use Rattle.std.specs.Prelude.{◌≡◌, ◌-◌, ◌<◌, ◌^◌, min, IfOk, IfErr, Err};
ghost use Rattle.im_link.specs.Parts.{word_count, byte_count};
ghost use Rattle.im_link.specs.Code.{IsLinkable, IsLinked, IsFaultOf, byte_limit, told_count};

use crate::fault::LinkFault;
use crate::linker::{Linker, MOST_WORDS};
use im_rv::{Code, Part};
use std::alloc::Global;

// How many lines the parts have together; 2^64 - 1 where it is more.
fn count_words(parts: &[Part]) -> u64
    ensures { result ≡ min (word_count parts.now) (2 ^ 64 - 1) }
{
    let mut words: u64 = 0;
    for part in parts {
        words = words.saturating_add(part.lines.len() as u64);
    }
    words
}

/// The code of these parts, one after another from 0x1000 on.
pub fn link(alloc: Global, parts: &[Part]) -> Result<Code, LinkFault>
    requires { IsLinkable parts.now }
    ensures linked { IfOk result (IsLinked parts.now) }
    ensures fault { IfErr result (IsFaultOf parts.now) }
    ensures limit { byte_limit < byte_count parts.now
        → result ≡ Err (LinkFault.Limit (told_count parts.now)) }
{
    let count = count_words(parts);
    if count > MOST_WORDS {
        return Err(LinkFault::Limit(count.saturating_mul(4)));
    }
    let mut linker = Linker::new(alloc);
    for part in parts {
        linker.add(alloc, part)?;
    }
    linker.finish()
}
