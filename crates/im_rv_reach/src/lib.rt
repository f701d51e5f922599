//! From single steps of the machine to runs in parts: where some steps lead, what they touch, what they show.
#![tactic(auto)]

mod laws;

pub use laws::joins_law;
