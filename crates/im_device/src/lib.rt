//! What a device does: power-up, steps, torn stores, periods of power, loading, and what memory shows.
#![tactic(auto)]

mod laws;

pub use laws::{boot_law, loaded_law, run_law, split_trace_law, stays_law, whole_law};
