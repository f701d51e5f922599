//! From what a declarator at file scope declares to what its name means behind it, or the rule that it breaks (C11 6.7, 6.9).
#![tactic(auto)]

mod again;
mod asked;
mod bodies;
mod builtin;
mod declared;
mod entities;
mod main_function;
mod names;
mod sized;

pub use bodies::{may_have_body, own_parameters};
pub use declared::declared_in_file;
pub use main_function::has_main;
