// The lexer: from the bytes of a source to its tokens (C11 6.4).
#![tactic(auto)]

mod fault;
mod lexing;
mod literals;
mod opening;
mod piece;
mod pieces;
mod runs;

pub use fault::{LexFault, LexFaultKind};
pub use lexing::{lex, one_reading};
pub use piece::{Piece, PieceKind};
