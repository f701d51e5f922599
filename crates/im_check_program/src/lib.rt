//! From a unit whose external declarations are typed to its program.
#![tactic(auto)]

mod functions;
mod given;
mod objects;
mod programs;
mod statics;
mod strings;

pub use programs::{Parts, program};
