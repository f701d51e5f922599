//! From block code over virtual registers to placed code over the machine's registers and slots.
#![tactic(auto)]

mod laws;

pub use laws::{placed_law, slots_law};
