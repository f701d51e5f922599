//! From placed code to the machine registers that live at its points, and the least checkpoint entry that saves them.
#![tactic(auto)]

mod entry;
mod live;
mod registers;
mod sweeps;

pub use entry::entry_for;
pub use live::{placed_live, points, starts};
