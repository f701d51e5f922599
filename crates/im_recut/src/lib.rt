//! From placed code to placed code with gap cuts and with greedy cuts over all its accesses, those to slots too.
#![tactic(auto)]

mod cuts;
mod laws;

pub use cuts::recut;
pub use laws::recut_keeps_law;
