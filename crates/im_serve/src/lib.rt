//! The functions that a program calls and has no body of: their names and types, and what they do to input and output.
#![tactic(auto)]

mod laws;
mod service;

pub use laws::services_law;
pub use service::Service;
