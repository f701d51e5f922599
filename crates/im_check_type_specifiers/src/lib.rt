//! From specifiers to the type that they name, or the rule that they break (C11 6.7.2).
#![tactic(auto)]

mod line;
mod qualified;
mod specified;
mod tags;
mod words;

pub use line::{Counts, Line, WordType, line_of};
pub use qualified::Qualified;
pub use specified::{specified_type, type_at_file};
pub use tags::{declare_alone, mention, tag_number};
pub use words::{has_const, storage_count};
