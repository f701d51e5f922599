//! Periods of power: the trace text that lists them, and what follows from its definitions.
#![tactic(auto)]

mod fault;
mod laws;
mod line;
mod period;
mod reading;
mod trace;

pub use fault::TraceFault;
pub use laws::{first_fault_law, written_law};
pub use period::Period;
pub use reading::read_trace;
pub use trace::Trace;
