//! From a tree to its typed program, or why it has none.
#![tactic(auto)]

mod checker;
mod fault;
mod limits;
mod units;

pub use checker::check;
pub use fault::CheckFault;
