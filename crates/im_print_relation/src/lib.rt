//! What a syntax tree is printed as: the words with the fewest parentheses, which spell the same tree again.
#![tactic(auto)]

mod examples;
mod laws;

pub use examples::program_text_example;
pub use laws::{needed_parentheses_law, printed_text_law, read_back_law, spelled_again_law};
