//! From the typed program to block code.
#![tactic(auto)]

mod laws;

pub use laws::{lower_keeps_law, lowered_form_law};
