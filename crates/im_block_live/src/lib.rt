//! From block code to the virtual registers that live at its points.
#![tactic(auto)]

mod groups;
mod laws;
mod liveness;
mod registers;
mod sweeps;

pub use groups::Live;
pub use laws::live_within_law;
pub use liveness::{live, points};
