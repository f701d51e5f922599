//! From words to what stands at a place among them; the typedef names in hand; and what every
//! parsing function promises.
#![tactic(auto)]

mod cursor;
mod stop;
mod typedef_names;

pub use cursor::{after_keyword, after_mark, name_at, word_at};
pub use stop::Stop;
pub use typedef_names::TypedefNames;
