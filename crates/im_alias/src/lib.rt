//! From a unit of block code to the tags of its accesses: the least points-to sets, by definition within a block.
#![tactic(auto)]

mod flow;
mod found;
mod laws;
mod made;
mod place;
mod set;
mod spot;
mod table;
mod tags;

pub use laws::{finer_law, least_law, least_tags_law, points_at_law};
pub use tags::alias;
