//! From a function of block code to homes of its registers: a linear scan over intervals.
#![tactic(auto)]

mod lines;
mod marks;
mod places;
mod scan;
mod starts;
mod table;
mod tables;
mod taken;

pub use scan::homes;
pub use table::{Home, Homes};
