//! The front end: from the bytes of a source to its syntax tree, or the place where it is no C.
#![tactic(auto)]

mod laws;
mod reading;

pub use laws::one_word_law;
pub use reading::{Text, place_of, read_source};
