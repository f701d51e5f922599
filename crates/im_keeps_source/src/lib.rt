//! A typed program as the source of the record of passes, and the lines of the passes from lowering
//! to placing.
#![tactic(auto)]

mod laws;
mod lowering;
mod middle;

pub use laws::{program_keeps_law, source_law};
pub use lowering::lowers_law;
pub use middle::middle_law;
