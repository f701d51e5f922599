//! From selected and linked code to the machine's line of the record of passes, and to what survival asks of its runs.
#![tactic(auto)]

mod laws;
mod survives;

pub use laws::{executes_law, objects_law};
pub use survives::survives_law;
