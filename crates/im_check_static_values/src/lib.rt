//! From what goes where in a static to the first values of its cells (C11 6.6, 6.7.9).
#![tactic(auto)]

mod address;
mod cells;
mod constant;
mod firsts;
mod given;
pub mod laws;
mod reached;
mod sizes;
mod steps;
mod value;

pub use cells::cells_of;
pub use constant::{annotated, constant_value};
pub use firsts::{first_values, zero_values};
pub use reached::is_reached_directly;
pub use sizes::Sizes;
pub use value::static_value;
