//! From the words of a source to what its tree is known to have, to well-typed programs, and to a cell and a name for each static.
#![tactic(auto)]

mod laws;
mod statics;

pub use laws::{spelt_law, words_law};
pub use statics::{statics_law, word_names_law};
