//! From linked code and the statics of its unit to the image of a program.
#![tactic(auto)]

mod bytes;
mod objects;
mod packing;
mod runs;

pub use packing::pack;
