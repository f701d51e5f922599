//! From the typed program to block code: the code itself.
#![tactic(auto)]

mod builder;
mod copies;
mod expressions;
mod functions;
mod initialise;
mod lines;
mod operators;
mod places;
mod program;
mod statements;
mod statics;
mod switch;

pub use program::lower;
