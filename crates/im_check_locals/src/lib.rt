//! From declarations in a block to the statements that they do and the objects that they add, or
//! the rule that a node breaks (C11 6.7).
#![tactic(auto)]

mod asked;
mod declarations;
mod objects;
mod read;
mod tag;

pub use declarations::declaration;
pub use im_check_initialisers::expression;
