//! From declarations at file scope to the names that they declare and the first values of statics, or the rule that a node breaks (C11 6.7, 6.7.9).
#![tactic(auto)]

mod declarations;
mod declarator;
mod entered;
mod first;
mod statics;
mod values;

pub use declarations::{declaration, declared};
