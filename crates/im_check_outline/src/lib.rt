//! From the tree of a unit to its outline: the names of its defined objects and of its bodies, and the tags of its member lists.
#![tactic(auto)]

mod declarator;
mod defined;
mod item;
mod lists;
mod specifier;
mod unit;
mod walk;

pub use declarator::{Neighbour, name_of, nearest};
pub use specifier::{is_extern, is_typedef, typedef_in};
pub use unit::{UnitOutline, outline};
