//! From tokens to words: what the grammar sees of tokens, and how deep they are nested.
#![tactic(auto)]

mod nesting;
mod role;
mod word;

pub use nesting::{NESTING_LIMIT, first_too_deep};
pub use role::{Role, role_of_word};
pub use word::{Word, word_of};
