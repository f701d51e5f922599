use im_lex::{LexFault, lex};
use im_tok::{
    Keyword, Number, NumberType, Punctuator, Token, TokenKind, character_of, keyword_of, number_of,
    punctuator_of,
};
use im_trial::{Case, Row, Stop, Texts};
use std::alloc::Global;

fn type_text(number_type: NumberType) -> &'static str {
    match number_type {
        NumberType::Int => " Int",
        NumberType::UnsignedInt => " UnsignedInt",
        NumberType::Long => " Long",
        NumberType::UnsignedLong => " UnsignedLong",
    }
}

/// Tells a number and its type.
pub(crate) fn tell_number(number: Number, case: &mut Case) {
    case.show(number.value);
    case.say(type_text(number.number_type));
}

fn tell_mark(mark: Option<Punctuator>, case: &mut Case) {
    match mark {
        Some(mark) => case.bytes(mark.text()),
        None => case.say(" none"),
    }
}

fn tell_keyword(keyword: Option<Keyword>, case: &mut Case) {
    match keyword {
        Some(keyword) => case.bytes(keyword.text()),
        None => case.say(" none"),
    }
}

/// `number`, a text: what it is as one (C11 6.4.4.1).
pub(crate) fn number(texts: &Texts, row: &Row<'_>, case: &mut Case) {
    let text = case.bytes_of(texts, row, 1);
    match number_of(&text) {
        Some(number) => tell_number(number, case),
        None => case.say(" none"),
    }
}

/// `character`, a text: what it is as one (C11 6.4.4.4).
pub(crate) fn character(texts: &Texts, row: &Row<'_>, case: &mut Case) {
    let text = case.bytes_of(texts, row, 1);
    match character_of(&text) {
        Some(value) => case.show(value),
        None => case.say(" none"),
    }
}

/// `keyword`, a text: what it is as one (C11 6.4.1).
pub(crate) fn keyword(texts: &Texts, row: &Row<'_>, case: &mut Case) {
    let text = case.bytes_of(texts, row, 1);
    tell_keyword(keyword_of(&text), case);
}

/// `punctuator`, a text: what it is as one (C11 6.4.6).
pub(crate) fn punctuator(texts: &Texts, row: &Row<'_>, case: &mut Case) {
    let text = case.bytes_of(texts, row, 1);
    tell_mark(punctuator_of(&text), case);
}

fn kind_text(kind: TokenKind) -> &'static str {
    match kind {
        TokenKind::Name => " Name",
        TokenKind::Keyword => " Keyword",
        TokenKind::Number => " Number",
        TokenKind::Character => " Character",
        TokenKind::Text => " Text",
        TokenKind::Punctuator => " Punctuator",
    }
}

fn tell_tokens(tokens: &[Token], case: &mut Case) {
    for token in tokens {
        case.say(kind_text(token.kind));
        case.show(token.span.0);
        case.show(token.span.1);
        case.show(token.line);
        case.say(";");
    }
}

/// `tokens`, a text: the kind, the place and the line of each of its tokens, or where it is stuck.
pub(crate) fn tokens(texts: &Texts, row: &Row<'_>, case: &mut Case) {
    let text = case.bytes_of(texts, row, 1);
    if text.len() >= 1000 {
        case.end(Stop::Row);
        return;
    }
    match lex(case.alloc, &text) {
        Ok(tokens) => tell_tokens(&tokens, case),
        Err(LexFault::Stuck { at, kind }) => {
            case.say(" stuck at");
            case.show(at);
            case.say(":");
            case.debug(&kind);
        }
        Err(LexFault::OutOfMemory) => case.end(Stop::Memory),
    }
}

fn is_one_token(alloc: Global, text: &[u8]) -> bool {
    if text.len() >= 1000 {
        return false;
    }
    match lex(alloc, text) {
        Ok(tokens) => tokens.len() == 1,
        Err(_) => false,
    }
}

/// `punctuators`: each of them, where it is one token.
pub(crate) fn punctuators(case: &mut Case) {
    for mark in Punctuator::ALL {
        if is_one_token(case.alloc, mark.text()) {
            case.bytes(mark.text());
        }
    }
}
