use im_parse_core::{Stop as ParseStop, TypedefNames};
use im_parse_expression::declaration;
use im_parse_statement::statement;
use im_tok::{Keyword, Number, NumberType, Punctuator};
use im_trial::{Case, Row, Stop};
use im_word::Word;
use std::alloc::Global;

fn mark_of(letter: u8) -> Option<Punctuator> {
    match letter {
        b'(' => Some(Punctuator::OpenParen),
        b')' => Some(Punctuator::CloseParen),
        b'{' => Some(Punctuator::OpenBrace),
        b'}' => Some(Punctuator::CloseBrace),
        b'[' => Some(Punctuator::OpenBracket),
        b']' => Some(Punctuator::CloseBracket),
        b'*' => Some(Punctuator::Star),
        b'+' => Some(Punctuator::Plus),
        b':' => Some(Punctuator::Colon),
        b';' => Some(Punctuator::Semicolon),
        b',' => Some(Punctuator::Comma),
        b'=' => Some(Punctuator::Assign),
        _ => None,
    }
}

fn keyword_of(letter: u8) -> Option<Keyword> {
    match letter {
        b'I' => Some(Keyword::If),
        b'E' => Some(Keyword::Else),
        b'W' => Some(Keyword::While),
        b'D' => Some(Keyword::Do),
        b'F' => Some(Keyword::For),
        b'S' => Some(Keyword::Switch),
        b'C' => Some(Keyword::Case),
        b'B' => Some(Keyword::Break),
        b'R' => Some(Keyword::Return),
        b'T' => Some(Keyword::Typedef),
        b'i' => Some(Keyword::Int),
        b'c' => Some(Keyword::Const),
        b's' => Some(Keyword::Struct),
        b'e' => Some(Keyword::Enum),
        b'z' => Some(Keyword::Sizeof),
        _ => None,
    }
}

/// The word that a letter stands for: a mark, a keyword, a digit, or a name.
fn word(letter: u8) -> Word<'static> {
    if let Some(mark) = mark_of(letter) {
        return Word::Mark(mark);
    }
    if let Some(keyword) = keyword_of(letter) {
        return Word::Keyword(keyword);
    }
    match letter {
        b'1' => Word::Number(Number {
            value: 1,
            number_type: NumberType::Int,
        }),
        b't' => Word::Name(b"t"),
        _ => Word::Name(b"x"),
    }
}

fn words_of(alloc: Global, letters: &str) -> Result<Vec<Word<'static>>, ParseStop> {
    let mut words = Vec::new(alloc);
    for letter in letters.as_bytes() {
        words.push(word(*letter))?;
    }
    Ok(words)
}

/// The place behind the declaration that these letters begin with. `t` is a typedef name.
fn declaration_end(alloc: Global, letters: &str) -> Result<u32, ParseStop> {
    let words = words_of(alloc, letters)?;
    let mut names = TypedefNames::new(alloc);
    names.push(b"t")?;
    if words.len() > 1000 {
        return Err(ParseStop::Memory);
    }
    let (_, end) = declaration(alloc, &words, &names, 0)?;
    Ok(end)
}

/// The place behind the statement that these letters begin with.
fn statement_end(alloc: Global, letters: &str) -> Result<u32, ParseStop> {
    let words = words_of(alloc, letters)?;
    let mut names = TypedefNames::new(alloc);
    if words.len() > 1000 {
        return Err(ParseStop::Memory);
    }
    let (_, end) = statement(alloc, &words, &mut names, 0)?;
    Ok(end)
}

fn tell_end(end: Result<u32, ParseStop>, case: &mut Case) {
    match end {
        Ok(end) => case.show(end),
        Err(ParseStop::Syntax(at)) => {
            case.say(" syntax");
            case.show(at);
        }
        Err(ParseStop::Memory) => case.end(Stop::Memory),
    }
}

/// `declaration`, letters: the place behind the declaration that they begin with, or of the first
/// word that none goes on with.
pub(crate) fn declared(row: &Row<'_>, case: &mut Case) {
    tell_end(declaration_end(case.alloc, row.field(1)), case);
}

/// `statement`, letters: the same of a statement.
pub(crate) fn stated(row: &Row<'_>, case: &mut Case) {
    tell_end(statement_end(case.alloc, row.field(1)), case);
}
