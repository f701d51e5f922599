use im_tok::{Keyword, Punctuator};
use im_trial::{Case, Row, Stop, Texts};
use im_word::{Word, first_too_deep};
use std::alloc::Global;

/// The word that a letter stands for: the first letter of a keyword, a mark, or a name.
fn nested_word(letter: u8) -> Word<'static> {
    match letter {
        b'(' => Word::Mark(Punctuator::OpenParen),
        b')' => Word::Mark(Punctuator::CloseParen),
        b'{' => Word::Mark(Punctuator::OpenBrace),
        b'}' => Word::Mark(Punctuator::CloseBrace),
        b';' => Word::Mark(Punctuator::Semicolon),
        b',' => Word::Mark(Punctuator::Comma),
        b':' => Word::Mark(Punctuator::Colon),
        b'?' => Word::Mark(Punctuator::Question),
        b'=' => Word::Mark(Punctuator::Assign),
        b'i' => Word::Keyword(Keyword::If),
        b'e' => Word::Keyword(Keyword::Else),
        b'w' => Word::Keyword(Keyword::While),
        b'd' => Word::Keyword(Keyword::Do),
        b's' => Word::Keyword(Keyword::Sizeof),
        b'r' => Word::Keyword(Keyword::Return),
        _ => Word::Name(b"x"),
    }
}

fn nested_words(alloc: Global, letters: &[u8]) -> Result<Vec<Word<'static>>, Stop> {
    let mut words = Vec::new(alloc);
    for letter in letters {
        words.push(nested_word(*letter))?;
    }
    Ok(words)
}

fn first_over(alloc: Global, letters: &[u8]) -> Result<Option<usize>, Stop> {
    let words = nested_words(alloc, letters)?;
    Ok(first_too_deep(alloc, &words)?)
}

/// `nesting`, a name, letters: the first word over the limit.
pub(crate) fn nesting(texts: &Texts, row: &Row<'_>, case: &mut Case) {
    let letters = case.bytes_of(texts, row, 2);
    match first_over(case.alloc, &letters) {
        Ok(Some(place)) => case.show(place),
        Ok(None) => case.say(" none"),
        Err(stop) => case.end(stop),
    }
}
