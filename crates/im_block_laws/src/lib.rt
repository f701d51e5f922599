//! Further laws of block code: what further cuts leave as it was, and how refinements join.
#![tactic(auto)]

mod laws;

pub use laws::{cuts_keep_code_law, points_law, refines_transitive_law, row_law, sample_law};
