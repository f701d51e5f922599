//! Why a source is refused.
#![tactic(auto)]

mod fault;

pub use fault::{LineFault, Place, Quantity, SourceFault, Subject};
