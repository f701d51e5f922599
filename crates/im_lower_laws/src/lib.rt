//! What holds of the code that lowering makes: it is ordered, well formed and small, and no register is read before it was written.
#![tactic(auto)]

mod laws;

pub use laws::{sized_law, written_first_law};
