//! From what the parts of an expression, a type name or a declarator are to what it is itself, at a place of the text.
#![tactic(auto)]

mod constant;

pub use constant::constant_of;
