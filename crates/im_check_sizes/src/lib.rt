//! Whether types are within the limit of sizes.
#![tactic(auto)]

mod within;

pub use within::{all_fit, fits};
