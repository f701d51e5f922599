//! From what goes where in an object to pieces of a typed program (C11 6.7.9).
#![tactic(auto)]

mod bytes;
mod item;
mod piece;

pub use bytes::push_bytes;
pub use item::{Item, Source};
pub use piece::{piece_of, pieces_of};
