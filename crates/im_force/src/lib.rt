//! From block code to block code with the cuts that it must have.
#![tactic(auto)]

mod cuts;
mod laws;

pub use cuts::force;
pub use laws::force_keeps_law;
