//! From placed code to code with further cuts, where a path without a cut would cost more words than it may.
#![tactic(auto)]

mod blocks;
mod laws;
mod lines;
mod starts;

pub use blocks::cut_gaps;
pub use laws::{further_law, gap_apart_law, gap_same_law, remaining_law};
