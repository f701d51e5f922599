ghost use Rattle.std.specs.Prelude.{◌≡◌, ◌<◌, ◌^◌, ℕ, List, Some, MatchOption, length, map, drop};
ghost use Rattle.im_word.specs.Shown.{shown};
ghost use Rattle.im_word.specs.Words.{text};
ghost use Rattle.im_parse_core.specs.Reads.{head};
ghost use Rattle.im_parse_core.specs.Places.{IsAt};
ghost use Rattle.im_parse_expression.specs.Parsing.{Parses, IsText, NoTextBehind, bytes_of};

use im_parse_core::{Stop, word_at};
use im_word::Word;
use std::alloc::Global;

/// The string literal at this place, and the place behind it.
fn text_at<'a, 'b>(words: &'a [Word<'b>], at: u32) -> Option<(&'a [u8], u32)>
    requires { length words.now < 2 ^ 32 }
    ensures { MatchOption result
        ((s : List ℕ) → head (drop at (map shown words.now)) ≡ Some (text s) → ⊥)
        (λ found. IsAt (text found.0.now) (map shown words.now) at found.1) }
{
    let found = word_at(words, at)?;
    match found.0 {
        Word::Text(bytes) => Some((bytes, found.1)),
        _ => None,
    }
}

/// The string literals side by side at this place, as one (C11 6.4.5), and the place behind them.
pub fn joined_text(alloc: Global, words: &[Word], at: u32) -> Result<(Vec<u8>, u32), Stop>
    requires { length words.now < 2 ^ 32 }
    ensures { Parses bytes_of IsText NoTextBehind (map shown words.now) at result }
{
    let Some((first, mut next)) = text_at(words, at) else {
        return Err(Stop::Syntax(at));
    };
    let mut bytes = Vec::from_slice(alloc, first)?;
    while let Some((more, end)) = text_at(words, next) {
        bytes.extend_from_slice(more)?;
        next = end;
    }
    Ok((bytes, next))
}
