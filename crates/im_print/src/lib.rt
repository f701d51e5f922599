//! From a syntax tree to its text.
#![tactic(auto)]

mod declarations;
mod print;
mod statements;

pub use print::print_tree;
