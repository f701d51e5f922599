//! From code to K, the exact longest gap between two commits, and from its static flow to its runs: K bounds the sections of a run, also where power fails.
#![tactic(auto)]

mod bound;
mod flow;
mod graph;
mod laws;
mod longest;
mod marks;
mod search;
mod starts;
mod table;

pub use bound::gap_bound_law;
pub use laws::{along_law, calls_law, gap_law, long_periods_law, one_gap_law, rank_law, step_law};
pub use longest::{gap, longest_gap};
