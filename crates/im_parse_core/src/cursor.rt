ghost use Rattle.std.specs.Prelude.{◌≡◌, ◌∷◌, [], ◌↔◌, ◌<◌, ◌^◌, ℕ, List, Some, IsTrue};
ghost use Rattle.std.specs.Prelude.{MatchOption, length, map, drop};
ghost use Rattle.im_word.specs.Shown.{shown};
ghost use Rattle.im_word.specs.Words.{name, keyword, mark};
ghost use Rattle.im_parse_core.specs.Reads.{head};
ghost use Rattle.im_parse_core.specs.Places.{IsAt};

use im_tok::{Keyword, Punctuator};
use im_word::Word;

/// The word at this place, and the place behind it.
pub fn word_at<'a, 'b>(words: &'a [Word<'b>], at: u32) -> Option<(&'a Word<'b>, u32)>
    requires { length words.now < 2 ^ 32 }
    ensures { MatchOption result (drop at (map shown words.now) ≡ [])
        (λ found. IsAt (shown found.0.now) (map shown words.now) at found.1) }
{
    match words.get(at as usize) {
        None => None,
        Some(word) => Some((word, at + 1)),
    }
}

fn is_mark(word: &Word, punctuator: Punctuator) -> bool
    ensures { IsTrue result ↔ shown word.now ≡ mark punctuator }
{
    match word {
        Word::Mark(found) => *found == punctuator,
        _ => false,
    }
}

fn is_keyword(word: &Word, wanted: Keyword) -> bool
    ensures { IsTrue result ↔ shown word.now ≡ keyword wanted }
{
    match word {
        Word::Keyword(found) => *found == wanted,
        _ => false,
    }
}

/// The place behind this punctuator, where it stands at this place.
pub fn after_mark<'b>(words: &[Word<'b>], at: u32, punctuator: Punctuator) -> Option<u32>
    requires { length words.now < 2 ^ 32 }
    ensures { MatchOption result (head (drop at (map shown words.now)) ≡ Some (mark punctuator) → ⊥)
        (λ next. IsAt (mark punctuator) (map shown words.now) at next) }
{
    let found = word_at(words, at)?;
    if is_mark(found.0, punctuator) {
        Some(found.1)
    } else {
        None
    }
}

/// The place behind this keyword, where it stands at this place.
pub fn after_keyword<'b>(words: &[Word<'b>], at: u32, wanted: Keyword) -> Option<u32>
    requires { length words.now < 2 ^ 32 }
    ensures { MatchOption result (head (drop at (map shown words.now)) ≡ Some (keyword wanted) → ⊥)
        (λ next. IsAt (keyword wanted) (map shown words.now) at next) }
{
    let found = word_at(words, at)?;
    if is_keyword(found.0, wanted) {
        Some(found.1)
    } else {
        None
    }
}

/// The name at this place, and the place behind it.
pub fn name_at<'b>(words: &[Word<'b>], at: u32) -> Option<(&'b [u8], u32)>
    requires { length words.now < 2 ^ 32 }
    ensures { MatchOption result ((s : List ℕ) → head (drop at (map shown words.now))
        ≡ Some (name s) → ⊥) (λ found. IsAt (name found.0.now) (map shown words.now) at found.1) }
{
    let found = word_at(words, at)?;
    match found.0 {
        Word::Name(bytes) => Some((*bytes, found.1)),
        _ => None,
    }
}
