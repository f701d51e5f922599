//! From block code to block code in which scalar locals whose address is never taken are registers.
#![tactic(auto)]

mod candidates;
mod homes;
mod laws;
mod objects;
mod promoting;
mod rewrite;
mod sweeps;

pub use laws::{
    cost_law, formed_law, ordered_law, placeable_law, promote_law, rest_law, written_law,
};
pub use promoting::promote;
