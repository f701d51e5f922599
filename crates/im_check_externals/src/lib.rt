//! From the external declarations of a unit to its functions and the first values of its statics,
//! or why they aren't typed (C11 6.9).
#![tactic(auto)]

mod declaration;
mod fault;
mod unit;

pub use fault::UnitFault;
pub use unit::{UnitDefined, externals};
