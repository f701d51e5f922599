ghost use Rattle.std.specs.Prelude.{◌≡◌, ◌≤◌, ◌↔◌, ℕ, List, length, slice_range, IfOk, IsTrue};
ghost use Rattle.im_tok.specs.Literals.{IsText};
ghost use Rattle.im_word.specs.Shown.{shown};
ghost use Rattle.im_word.specs.Tokens.{IsWordOf};

use im_num::NoMemory;
use im_tok::{
    Keyword, Number, Punctuator, Token, TokenKind, character_of, element_at, keyword_of, number_of,
    punctuator_of, text_bytes,
};
use std::alloc::Global;

/// A token without its place (C11 6.4): its kind, with its name, value or mark.
#[derive(Drop)]
pub enum Word<'a> {
    /// A name's bytes.
    Name(&'a [u8]),
    Keyword(Keyword),
    Number(Number),
    Character(u8),
    /// The bytes that a string literal stands for, without the zero byte at the end.
    Text(Vec<u8>),
    Mark(Punctuator),
    /// A token whose text isn't of its kind.
    Unknown,
}

/// Whether the text is a string literal (C11 6.4.5).
fn is_text(text: &[u8]) -> bool
    ensures { IsTrue result ↔ ((bytes : List ℕ) × IsText text.now bytes) }
{
    if text.is_empty() {
        return false;
    }
    if text[0] != b'"' {
        return false;
    }
    let mut rest = &text[1..];
    while let Ok(element) = element_at(rest, b'"') {
        rest = &rest[element.length..];
    }
    if rest.len() != 1 {
        return false;
    }
    rest[0] == b'"'
}

/// The word of a token, whose span lies in the source.
pub fn word_of<'a>(alloc: Global, source: &'a [u8], token: &Token) -> Result<Word<'a>, NoMemory>
    requires ordered { token.now.span.0 ≤ token.now.span.1 }
    requires within { token.now.span.1 ≤ length source.now }
    ensures { let text = slice_range source.now token.now.span.0 token.now.span.1 in IfOk result
        (λ word. IsWordOf token.now.kind text (shown word)) }
{
    let text = token.text(source);
    match token.kind {
        TokenKind::Name => Ok(Word::Name(text)),
        TokenKind::Keyword => match keyword_of(text) {
            Some(keyword) => Ok(Word::Keyword(keyword)),
            None => Ok(Word::Unknown),
        },
        TokenKind::Number => match number_of(text) {
            Some(number) => Ok(Word::Number(number)),
            None => Ok(Word::Unknown),
        },
        TokenKind::Character => match character_of(text) {
            Some(character) => Ok(Word::Character(character)),
            None => Ok(Word::Unknown),
        },
        TokenKind::Text => {
            if is_text(text) {
                Ok(Word::Text(text_bytes(alloc, text)?))
            } else {
                Ok(Word::Unknown)
            }
        }
        TokenKind::Punctuator => match punctuator_of(text) {
            Some(mark) => Ok(Word::Mark(mark)),
            None => Ok(Word::Unknown),
        },
    }
}
