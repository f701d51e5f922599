//! Names by their bytes: the number that a name has, and the place that it has in a list, each in near constant time.
#![tactic(auto)]

mod list;
mod map;
mod tags;

pub use list::NameList;
pub use map::NameMap;
pub use tags::TagList;
