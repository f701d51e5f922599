//! From an image as the compiler writes it to the headline: what lies in memory as power comes first, and that the image keeps what the run shows that never loses power.
#![tactic(auto)]

mod laws;

pub use laws::{end_kept_law, run_kept_law, written_law};
