//! Why a node isn't typed, and when an answer is a rule that refuses it.
#![tactic(auto)]

mod stop;

pub use stop::{Stop, refused};
