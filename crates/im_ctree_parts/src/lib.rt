//! From the parts of a tree to lists of them: a row is the vector that it was made of, and a part is what its fields say. And what a tree says of its typedef names.
#![tactic(auto)]

mod names;

pub use names::{declared_name, has_typedef};
