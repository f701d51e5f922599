//! From an object's type and its initialiser to which form stands for which type, or the rule that
//! refuses it (C11 6.7.9).
#![tactic(auto)]

mod counted;
mod form;
mod parts;
mod rule;
mod shape;
mod strings;

pub use counted::completed;
pub use form::shape_of;
pub use parts::token_of;
pub use rule::{has_shape, shaped};
pub use shape::Shape;
pub use strings::is_string_for;
