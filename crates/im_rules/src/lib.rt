//! The 34 typing rules: what a tree is typed to, and which node of it breaks which rule.
#![tactic(auto)]

pub mod examples;
pub mod laws;
