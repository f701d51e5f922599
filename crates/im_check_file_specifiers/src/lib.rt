//! From specifiers at file scope and of members, with the lists that they declare, to the type that
//! they name, or the rule that a node breaks.
#![tactic(auto)]

mod enumerators;
mod enums;
mod fields;
mod level;
mod lists;
mod sizes;
mod specified;
mod unlisted;
mod words;

pub use im_check_expressions::{declarator, parameters};
pub use level::Level;
pub use specified::specify;
