//! The machine: five MiB of nonvolatile memory, and registers that each loss of power clears.
#![tactic(auto)]

mod fault;
mod laws;
mod load;
mod machine;
mod objects;
mod shows;
mod stretch;
mod vars;

pub use fault::LoadFault;
pub use im_mem_file::{MemoryFault, upgrade_memory};
pub use laws::{periods_law, place_law};
pub use machine::Machine;
