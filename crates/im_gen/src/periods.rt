ghost use Rattle.std.specs.Prelude.{◌≡◌, ◌<◌, ◌^◌, IfOk};
ghost use Rattle.im_gen.specs.Gen.{gen_period, gen_trace, sequence};

use crate::sequence::next_word;
use im_num::NoMemory;
use im_power::{Period, Trace};
use std::alloc::Global;

/// How many periods a trace has.
const PERIODS: u32 = 64;

/// How often each is repeated.
const REPEATS: u32 = 10_000;

/// The word of the sequence that comes after those of the functions.
fn last_word(count: u32) -> u32
    ensures { result ≡ sequence count count }
{
    let mut word = count;
    for _ in 0..count {
        word = next_word(word);
    }
    word
}

/// The period of a word, of at least `gap` instructions.
fn period_of(gap: u32, word: u32) -> Period
    requires { gap < 2 ^ 31 }
    ensures { result ≡ gen_period gap word }
{
    Period {
        n: gap + (word >> 26),
        junk: word,
        count: REPEATS,
        mask: 0,
    }
}

/// The periods under which the source of so many functions is run. `gap` is K, the longest gap of
/// its image in instructions.
pub fn trace(alloc: Global, count: u32, gap: u32) -> Result<Trace, NoMemory>
    requires { gap < 2 ^ 31 }
    ensures { IfOk result (λ periods. periods ≡ gen_trace count gap) }
{
    let mut word = last_word(count);
    let mut periods = Vec::new(alloc);
    for _ in 0..PERIODS {
        word = next_word(word);
        periods.push(period_of(gap, word))?;
    }
    Ok(Trace::new(periods))
}
