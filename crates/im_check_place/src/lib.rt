//! From what was declared and read before a place of the text to what is known there.
#![tactic(auto)]

mod entered;
mod field;
mod free;
mod held;
mod place;
mod structs;

pub use field::Field;
pub use place::Place;
pub use structs::Structs;
