//! Cases as the rows of a table: their fields, what a case finds, and whether that is what its row wants.
#![tactic(auto)]

mod case;
mod escapes;
mod fields;
mod row;
mod stop;
mod table;
mod tables;
mod tally;
mod texts;

pub use case::Case;
pub use row::Row;
pub use stop::Stop;
pub use tables::{Kinds, run_tables};
pub use texts::Texts;
