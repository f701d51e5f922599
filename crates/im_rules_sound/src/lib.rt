//! From the typing rules to well-typed programs.
#![tactic(auto)]

mod laws;

pub use laws::{
    assigns_law, calls_law, casts_law, choices_law, members_law, operations_law, reads_law,
    unary_law,
};
