ghost use Rattle.std.specs.Prelude.{◌≡◌, ℕ, ◌<◌, ◌^◌, ◌==◌, List, All, IfOk, IfErr, MatchResult};
ghost use Rattle.std.specs.Prelude.{length, count_by};
ghost use Rattle.im_lex.specs.Lexing.{Lexes, StuckAt};
ghost use Rattle.im_lex.specs.Faults.{IsLexFault};
ghost use Rattle.im_lex.specs.Tokens.{IsTokenOf};
ghost use Rattle.im_tok.specs.declared.token.Token.{Token};

use crate::fault::LexFault;
use crate::piece::PieceKind;
use crate::pieces::piece_at;
use im_tok::Token;
use std::alloc::Global;

/// How many lines end in these bytes.
fn line_ends(bytes: &[u8]) -> usize
    ensures { result ≡ count_by (λ byte. byte == 10) bytes.now }
{
    bytes.iter().filter(|byte| **byte == b'\n').count()
}

/// The tokens of a source (C11 6.4), or the first place where none can be read.
pub fn lex(alloc: Global, source: &[u8]) -> Result<Vec<Token>, LexFault>
    requires { length source.now < 2 ^ 32 }
    ensures lexes { IfOk result (λ tokens. Lexes source.now tokens.items) }
    ensures stuck { IfErr result (λ fault. IsLexFault source.now fault) }
    ensures exact { (tokens : List Token) → Lexes source.now tokens →
        MatchResult result (λ found. found.items ≡ tokens) (λ fault. fault ≡ LexFault.OutOfMemory) }
    ensures each { IfOk result (λ tokens. All (IsTokenOf source.now) tokens.items) }
{
    let mut tokens = Vec::new(alloc);
    let mut at = 0;
    let mut line = 1;
    while at < source.len() {
        let starts_line = at == 0 || source[at - 1] == b'\n';
        let piece = match piece_at(&source[at..], starts_line) {
            Ok(piece) => piece,
            Err(kind) => return Err(LexFault::Stuck {
                at: at as u32,
                kind,
            }),
        };
        let end = at + piece.length;
        if let PieceKind::Token(kind) = piece.kind {
            tokens.push(Token {
                kind,
                span: (at as u32, end as u32),
                line: line as u32,
            })?;
        }
        line += line_ends(&source[at..end]);
        at = end;
    }
    Ok(tokens)
}

/// A text lexes to one list of tokens at most, is stuck at one place at most, and isn't both.
pub fn one_reading()
    ensures tokens { (text : List ℕ) (a b : List Token) → Lexes text a → Lexes text b → a ≡ b }
    ensures place { (text : List ℕ) (a b : ℕ) → StuckAt text a → StuckAt text b → a ≡ b }
    ensures apart { (text : List ℕ) (tokens : List Token) (at : ℕ) → Lexes text tokens
        → StuckAt text at → ⊥ }
{}
