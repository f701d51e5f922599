//! From what was declared and typed before a place of a function's body to what is known there.
#![tactic(auto)]

mod body;
mod position;

pub use body::{Body, Local};
pub use position::Position;
