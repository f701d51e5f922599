//! From a typed program and an input to what the program does.
#![tactic(auto)]

mod at_once;
mod ended;
mod ending;
mod program;
mod resume;
mod run;
mod step;
mod variables;

pub use ended::conclude;
pub use ending::{bytes_law, statics_live_law};
pub use im_eval_machine::{Outcome, Reason};
pub use program::{eval, eval_framed};
