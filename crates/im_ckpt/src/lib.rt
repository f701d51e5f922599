//! From a cut to its register buffer, and from a buffer back to the registers: the checkpoint routine and recovery.
#![tactic(auto)]

mod checkpoint;
mod laws;
mod push;
mod recovery;

pub use checkpoint::checkpoint_lines;
pub use laws::{checkpoint_law, resume_law};
pub use recovery::{boot_buffer, recovery_lines};
