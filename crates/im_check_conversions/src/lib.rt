//! From a term to the value that is wanted of it: conversions are written out (C11 6.3).
#![tactic(auto)]

mod convert;
mod kinds;
mod read;

pub use convert::{as_integer, as_pointer, as_type, literal, of_integer, of_variable};
pub use kinds::{common, integer_in, integer_of, kind_in, promoted};
pub use read::{access, type_in, value_of};
