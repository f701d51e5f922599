//! From what was declared and read before a place at file scope to what is known there.
#![tactic(auto)]

mod file;
mod predeclared;
mod sizes;

pub use file::File;
