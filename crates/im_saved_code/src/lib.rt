//! From selected functions, the runtime's routines and a program's parts to the liveness of registers at the words of its linked code.
#![tactic(auto)]

mod laws;

pub use laws::{function_lines_law, live_code_law, routine_lines_law};
