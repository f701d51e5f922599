//! From words to the statement or block that they spell, or the place of the first that none goes on with.
#![tactic(auto)]

mod blocks;
mod branches;
mod closed;
mod loops;
mod make;
mod names;
mod start;
mod statements;

pub use blocks::block;
pub use names::remember;
pub use statements::statement;
