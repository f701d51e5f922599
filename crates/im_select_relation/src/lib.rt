//! From placed code over objects, with C's operators on integers, to instructions over memory and the machine's operators on words.
#![tactic(auto)]

mod laws;

pub use laws::{frame_law, lines_law, select_keeps_law, words_agree_law};
