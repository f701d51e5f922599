//! From the runtime's routines to their lines: a byte in, a byte out, and the two ends of a program.
#![tactic(auto)]

mod ends;
mod getchar;
mod labels;
mod laws;
mod lines;
mod putchar;

pub use ends::{exit_lines, stack_lines};
pub use getchar::getchar_lines;
pub use labels::{EXIT, FIRST_FREE, STACK, service_label};
pub use laws::lines_law;
pub use putchar::putchar_lines;
