//! From the parts of declarators and type names to what they declare, or the rule that they break (C11 6.7.6).
#![tactic(auto)]

mod declared;
mod functions;
mod given;
mod parameters;
mod sized;
mod stars;
mod suffixes;

pub use declared::{Declared, called, unnamed};
pub use functions::{are_scalars, function, without_void};
pub use given::Given;
pub use parameters::{adjusted, parameter};
pub use sized::{is_sized, sized_type};
pub use stars::with_stars;
pub use suffixes::{array, open_array, suffixed};
