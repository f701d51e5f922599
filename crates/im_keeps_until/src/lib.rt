//! What compiled code owes of a run up to a time, and what follows for all times.
#![tactic(auto)]

mod laws;

pub use laws::until_law;
