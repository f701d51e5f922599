//! From block code to placed code: each register in its home, one of the machine's or a slot.
#![tactic(auto)]

mod exits;
mod homes;
mod lines;
mod numbers;
mod operands;
mod pieces;
mod placing;

pub use placing::place;
