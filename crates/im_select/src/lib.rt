//! From placed code over objects to lines of RISC-V with labels.
#![tactic(auto)]

mod blocks;
mod branching;
mod comparing;
mod computing;
mod distance;
mod folding;
mod leads;
mod lines;
mod memory;
mod names;
mod order;
mod push;
mod selection;
mod words;

pub use branching::Test;
pub use distance::Distance;
pub use names::Names;
pub use selection::select;
