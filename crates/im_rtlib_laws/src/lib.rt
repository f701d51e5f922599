//! From the lines of the runtime's routines to what they do on the machine, and what they touch.
#![tactic(auto)]

mod laws;
mod touches;

pub use laws::{exit_law, getchar_law, putchar_law, serves_law, stack_law};
pub use touches::{joins_law, sections_law, touched_law};
