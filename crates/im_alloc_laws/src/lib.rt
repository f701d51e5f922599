//! What placed code keeps of block code: order, forced cuts, costs, its shape, and tags.
#![tactic(auto)]

mod laws;

pub use laws::placed_code_law;
