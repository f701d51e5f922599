ghost use Rattle.std.specs.Prelude.{◌≡◌, ◌<◌, ◌^◌, length, IfOk, MatchResult};
ghost use Rattle.im_lex.specs.Lexing.{line_at};
ghost use Rattle.im_front.specs.Reading.{IsRead, IsTokenFault, AreTokens, of_token, token_spans};
ghost use Rattle.im_front.specs.Reading.{place_at, place_among};

use im_ctree::Tree;
use im_fault::{LineFault, Place, Quantity, SourceFault};
use im_lex::{LexFault, LexFaultKind, lex};
use im_num::NoMemory;
use im_parse::{ParseFault, parse};
use im_tok::Token;
use std::alloc::Global;

/// The most bytes of a source.
const LIMIT: usize = 4_194_304;

/// The tree that the tokens of a source spell, and the bytes of each token: from the first place
/// on, up to before the second.
#[derive(Drop)]
pub struct Text {
    pub spans: Vec<(u32, u32)>,
    pub tree: Tree,
}

/// The line in which these bytes end: how many lines end in them, and 1.
fn last_line(source: &[u8]) -> u32
    requires { length source.now < 2 ^ 31 }
    ensures { result ≡ line_at source.now (length source.now) }
{
    1 + source.iter().filter(|byte| **byte == b'\n').count() as u32
}

/// The place of these bytes of a source.
fn place(source: &[u8], span: (u32, u32)) -> Place
    requires { length source.now < 2 ^ 31 }
    ensures { result ≡ place_at source.now span }
{
    let (start, end) = span;
    let front = source.len().min(start as usize);
    Place {
        line: last_line(&source[..front]),
        start,
        end,
    }
}

/// The bytes of each token.
fn spans_of(alloc: Global, tokens: &[Token]) -> Result<Vec<(u32, u32)>, NoMemory>
    ensures { IfOk result (λ spans. spans.items ≡ token_spans tokens.now) }
{
    let mut spans = Vec::with_capacity(alloc, tokens.len())?;
    for token in tokens {
        spans.push(token.span)?;
    }
    Ok(spans)
}

/// The place of a token by its number, given the bytes of all tokens, or the end of the text where
/// there is no such token.
pub fn place_of(source: &[u8], spans: &[(u32, u32)], number: u32) -> Place
    requires { length source.now < 2 ^ 31 }
    ensures { result ≡ place_among source.now spans.now number }
{
    if (number as usize) < spans.len() {
        place(source, spans[number as usize])
    } else {
        let end = source.len() as u32;
        place(source, (end, end))
    }
}

fn line_fault(kind: LexFaultKind) -> LineFault
    ensures { result ≡ of_token kind }
{
    match kind {
        LexFaultKind::BadByte => LineFault::BadByte,
        LexFaultKind::OpenComment => LineFault::OpenComment,
        LexFaultKind::OpenLiteral => LineFault::OpenLiteral,
        LexFaultKind::BadEscape => LineFault::BadEscape,
        LexFaultKind::BadNumber => LineFault::BadNumber,
        LexFaultKind::BadDirective => LineFault::BadDirective,
    }
}

fn lexed(alloc: Global, source: &[u8]) -> Result<Vec<Token>, SourceFault>
    requires { length source.now < 2 ^ 31 }
    ensures { MatchResult result (AreTokens source.now) (IsTokenFault source.now) }
{
    match lex(alloc, source) {
        Ok(mut tokens) => {
            tokens.shrink_to_fit();
            Ok(tokens)
        }
        Err(LexFault::Stuck { at, kind }) => Err(SourceFault::Line {
            place: place(source, (at, at)),
            why: line_fault(kind),
        }),
        Err(LexFault::OutOfMemory) => Err(SourceFault::OutOfMemory),
    }
}

/// The tree of a source (C11 6.4, 6.9) and where its tokens stand, or why it has none: its length
/// is looked at first, then its tokens, their nesting, and the unit, or their dimensions where
/// these pass their limit first.
pub fn read_source(alloc: Global, source: &[u8]) -> Result<Text, SourceFault>
    ensures { IsRead source.now result }
{
    if source.len() > LIMIT {
        return Err(SourceFault::Limit {
            quantity: Quantity::Source,
            count: source.len() as u64,
        });
    }
    let tokens = lexed(alloc, source)?;
    let Ok(spans) = spans_of(alloc, &tokens) else {
        return Err(SourceFault::OutOfMemory);
    };
    match parse(alloc, source, tokens) {
        Ok(tree) => Ok(Text { spans, tree }),
        Err(ParseFault::Depth(number)) => Err(SourceFault::Line {
            place: place_of(source, &spans, number),
            why: LineFault::Nesting,
        }),
        Err(ParseFault::Dimensions(number)) => Err(SourceFault::Line {
            place: place_of(source, &spans, number),
            why: LineFault::Dimensions,
        }),
        Err(ParseFault::Syntax(number)) => Err(SourceFault::Line {
            place: place_of(source, &spans, number),
            why: LineFault::Syntax,
        }),
        Err(ParseFault::Memory) => Err(SourceFault::OutOfMemory),
    }
}
