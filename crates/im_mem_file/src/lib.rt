//! From memory to the text of a memory file, and back: the pages that aren't zero, by their numbers.
#![tactic(auto)]

mod fault;
mod header;
mod laws;
mod pages;
mod reading;
mod upgrading;
mod words;
mod writing;

pub use fault::MemoryFault;
pub use laws::{each_memory_text_law, one_memory_law};
pub use reading::{Saved, read_memory};
pub use upgrading::upgrade_memory;
pub use writing::write_memory;
