//! From an object's type and its initialiser to what goes where in the object, or the rule that a node breaks (C11 6.7.9).
#![tactic(auto)]

mod cells;
mod declaration;
mod member;
mod parts;
mod value;
mod walk;

pub use declaration::initialisation;
pub use im_check_expressions::{declarator, expression};
pub use walk::initialised;
