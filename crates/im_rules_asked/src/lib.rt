//! From a tree to what it is typed to and what the typing rules ask of it, as functions that compute: definitions, laws and examples.
#![tactic(auto)]

pub mod examples;
pub mod laws;
