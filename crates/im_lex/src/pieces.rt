ghost use Rattle.std.specs.Prelude.{◌≡◌, ◌≢◌, ℕ, ◌<◌, ◌⊎◌, Bool, IsTrue, MatchResult, length};
ghost use Rattle.std.specs.Prelude.{slice_index};
ghost use Rattle.im_lex.specs.Openings.{opening_of};
ghost use Rattle.im_lex.specs.Bytes.{IsNameStart, IsBlank};
ghost use Rattle.im_lex.specs.Pieces.{IsNext, HasNone, BeginsNumber};
ghost use Rattle.im_lex.specs.Faults.{IsFault};
ghost use Rattle.im_lex.specs.Runs.{ElementsEnd};

use crate::fault::LexFaultKind;
use crate::literals::{Elements, elements_end};
use crate::opening::{Opening, opening_of};
use crate::piece::{Piece, PieceKind};
use crate::runs::{begins_marker, comment_end, line_end, name_end, number_end};
use im_tok::{ElementFault, TokenKind, keyword_of, number_of, punctuator_of};

/// The name or keyword that begins the text.
fn name_piece(text: &[u8]) -> Piece
    requires { IsNameStart (slice_index text.now 0) }
    ensures { (start : Bool) → IsNext start text.now result }
{
    let length = name_end(text);
    let kind = match keyword_of(&text[..length]) {
        Some(_) => TokenKind::Keyword,
        None => TokenKind::Name,
    };
    Piece {
        kind: PieceKind::Token(kind),
        length,
    }
}

/// The integer constant that begins the text.
fn number_piece(text: &[u8]) -> Result<Piece, LexFaultKind>
    requires { BeginsNumber text.now }
    ensures { MatchResult result
        (λ piece. (start : Bool) → IsNext start text.now piece)
        (λ kind. ((start : Bool) → HasNone start text.now) × IsFault kind text.now) }
{
    let length = number_end(text);
    match number_of(&text[..length]) {
        Some(_) => Ok(Piece {
            kind: PieceKind::Token(TokenKind::Number),
            length,
        }),
        None => Err(LexFaultKind::BadNumber),
    }
}

/// The character constant or string literal that begins the text.
fn literal_piece(text: &[u8], quote: u8) -> Result<Piece, LexFaultKind>
    requires kind { (quote ≡ 39) ⊎ (quote ≡ 34) }
    requires begins { slice_index text.now 0 ≡ quote }
    ensures { MatchResult result
        (λ piece. (start : Bool) → IsNext start text.now piece)
        (λ kind. ((start : Bool) → HasNone start text.now) × IsFault kind text.now) }
{
    let elements = elements_end(text, quote);
    match elements.fault {
        ElementFault::BadEscape => Err(LexFaultKind::BadEscape),
        ElementFault::End => closed_piece(text, quote, elements),
    }
}

/// The literal that begins the text, where its characters and escapes end as said.
fn closed_piece(text: &[u8], quote: u8, elements: Elements) -> Result<Piece, LexFaultKind>
    requires kind { (quote ≡ 39) ⊎ (quote ≡ 34) }
    requires begins { slice_index text.now 0 ≡ quote }
    requires read { ElementsEnd quote text.now elements.end elements.count ElementFault.End }
    ensures { MatchResult result
        (λ piece. (start : Bool) → IsNext start text.now piece)
        (λ kind. ((start : Bool) → HasNone start text.now) × IsFault kind text.now) }
{
    if elements.end >= text.len() || text[elements.end] != quote {
        return Err(LexFaultKind::OpenLiteral);
    }
    let length = elements.end + 1;
    if quote == b'"' {
        Ok(Piece {
            kind: PieceKind::Token(TokenKind::Text),
            length,
        })
    } else if elements.count == 1 {
        Ok(Piece {
            kind: PieceKind::Token(TokenKind::Character),
            length,
        })
    } else {
        Err(LexFaultKind::OpenLiteral)
    }
}

/// The comment that begins the text.
fn comment_piece(text: &[u8]) -> Result<Piece, LexFaultKind>
    requires { (slice_index text.now 0 ≡ 47)
        × ((slice_index text.now 1 ≡ 42) ⊎ (slice_index text.now 1 ≡ 47)) }
    ensures { MatchResult result
        (λ piece. (start : Bool) → IsNext start text.now piece)
        (λ kind. ((start : Bool) → HasNone start text.now) × IsFault kind text.now) }
{
    if text[1] == b'/' {
        return Ok(Piece {
            kind: PieceKind::Comment,
            length: line_end(text),
        });
    }
    match comment_end(text) {
        Some(length) => Ok(Piece {
            kind: PieceKind::Comment,
            length,
        }),
        None => Err(LexFaultKind::OpenComment),
    }
}

/// The line marker that begins the text.
fn marker_piece(text: &[u8], starts_line: bool) -> Result<Piece, LexFaultKind>
    requires { slice_index text.now 0 ≡ 35 }
    ensures { MatchResult result
        (λ piece. IsNext starts_line text.now piece)
        (λ kind. HasNone starts_line text.now × IsFault kind text.now) }
{
    if starts_line && begins_marker(text) {
        Ok(Piece {
            kind: PieceKind::Marker,
            length: line_end(text),
        })
    } else {
        Err(LexFaultKind::BadDirective)
    }
}

/// The punctuator that begins the text.
fn punctuator_piece(text: &[u8]) -> Result<Piece, LexFaultKind>
    requires { opening_of (slice_index text.now 0) (slice_index text.now 1) ≡ Opening.Other }
    ensures { MatchResult result
        (λ piece. (start : Bool) → IsNext start text.now piece)
        (λ kind. ((start : Bool) → HasNone start text.now) × IsFault kind text.now) }
{
    for shorter in 0..3 {
        let length = 3 - shorter;
        if length <= text.len() && punctuator_of(&text[..length]).is_some() {
            return Ok(Piece {
                kind: PieceKind::Token(TokenKind::Punctuator),
                length,
            });
        }
    }
    Err(LexFaultKind::BadByte)
}

/// The piece that stands at the front of the text, which isn't empty (C11 6.4).
pub fn piece_at(text: &[u8], starts_line: bool) -> Result<Piece, LexFaultKind>
    requires { 0 < length text.now }
    ensures { MatchResult result
        (λ piece. IsNext starts_line text.now piece)
        (λ kind. HasNone starts_line text.now × IsFault kind text.now) }
{
    let second = if text.len() > 1 { text[1] } else { 0 };
    match opening_of(text[0], second) {
        Opening::Blank => Ok(Piece {
            kind: PieceKind::Blank,
            length: 1,
        }),
        Opening::Name => Ok(name_piece(text)),
        Opening::Number => number_piece(text),
        Opening::Character => literal_piece(text, b'\''),
        Opening::Text => literal_piece(text, b'"'),
        Opening::Hash => marker_piece(text, starts_line),
        Opening::Comment => comment_piece(text),
        Opening::Other => punctuator_piece(text),
    }
}
