//! From parts, lines of instructions with labels, to code in its place.
#![tactic(auto)]

mod aim;
mod cuts;
mod fault;
mod laws;
mod linker;
mod linking;
mod places;
mod words;

pub use aim::Aim;
pub use fault::LinkFault;
pub use laws::laid_law;
pub use linker::Linker;
pub use linking::link;
