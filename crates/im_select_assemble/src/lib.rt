//! From placed code to the parts of a program, in a linker: the runtime, the functions, the lines
//! that begin.
#![tactic(auto)]

mod functions;
mod program;
mod runtime;

pub use program::{Assembled, Program, assemble};
