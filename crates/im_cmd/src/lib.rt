//! From the words of a command to its texts and its exit status: sources become images or are evaluated,
//! and images are run and shown.
#![tactic(auto)]

mod building;
mod checking;
mod commands;
mod entry;
mod evaluated;
mod evaluating;
mod files;
mod generated;
mod generating;
mod laws;
mod resuming;
mod running;
mod saving;
mod status;
mod stored;
mod telling;
mod upgrading;

pub use entry::top;
pub use laws::joined_law;
