use crate::lexical::tell_number;
use im_tok::{Token, TokenKind};
use im_trial::{Case, Row, Stop, Texts};
use im_word::{Word, word_of};

fn kind_of(text: &str) -> Option<TokenKind> {
    match text {
        "Name" => Some(TokenKind::Name),
        "Keyword" => Some(TokenKind::Keyword),
        "Number" => Some(TokenKind::Number),
        "Character" => Some(TokenKind::Character),
        "Text" => Some(TokenKind::Text),
        "Punctuator" => Some(TokenKind::Punctuator),
        _ => None,
    }
}

fn tell_word(word: &Word<'_>, case: &mut Case) {
    match word {
        Word::Name(name) => {
            case.say(" Name");
            case.bytes(name);
        }
        Word::Keyword(keyword) => case.bytes(keyword.text()),
        Word::Number(number) => tell_number(*number, case),
        Word::Character(value) => {
            case.say(" Character");
            case.show(*value);
        }
        Word::Text(bytes) => {
            case.say(" Text");
            case.bytes(bytes);
        }
        Word::Mark(mark) => case.bytes(mark.text()),
        Word::Unknown => case.say(" Unknown"),
    }
}

// The bytes of a token, and its word.
fn tell_token(text: &[u8], token: &Token, case: &mut Case) {
    if token.span.0 > token.span.1 || token.span.1 as usize > text.len() {
        case.end(Stop::Row);
        return;
    }
    case.bytes(token.text(text));
    match word_of(case.alloc, text, token) {
        Ok(word) => tell_word(&word, case),
        Err(_) => case.end(Stop::Memory),
    }
}

/// `word`, a text, a kind, two places: the token of that kind between them, and its word.
pub(crate) fn word(texts: &Texts, row: &Row<'_>, case: &mut Case) {
    let text = case.bytes_of(texts, row, 1);
    let Some(kind) = kind_of(row.field(2)) else {
        case.end(Stop::Row);
        return;
    };
    let span = (case.small(row.field(3)), case.small(row.field(4)));
    let token = Token {
        kind,
        span,
        line: 1,
    };
    tell_token(&text, &token, case);
}
