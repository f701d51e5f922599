//! From code with its forced cuts to code with a cut directly before each write that may meet an
//! exposed read.
#![tactic(auto)]

mod blocks;
mod joins;
mod laws;
mod lines;
mod marks;
mod starts;

pub use blocks::{cut, cut_in};
pub use laws::{apart_law, same_law, sweep_law};
