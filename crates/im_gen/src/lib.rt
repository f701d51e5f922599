//! A made source of so many functions, and the periods of power under which it is run.
#![tactic(auto)]

mod periods;
mod sequence;
mod text;

pub use periods::trace;
pub use text::source;
