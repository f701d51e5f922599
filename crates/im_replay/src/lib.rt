//! From a run that never loses power to all runs that do: what a device shows that loses power at any moment.
#![tactic(auto)]

mod laws;

pub use laws::{keeps_law, output_law, progress_law, reach_law, replay_law};
