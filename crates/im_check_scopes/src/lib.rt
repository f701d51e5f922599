//! From names and tags to what they mean at a place of the text (C11 6.2.1, 6.2.3).
#![tactic(auto)]

mod entity;
mod lookup;
mod scope;

pub use entity::{Callee, Entity, Entry, Storage, Tag};
pub use scope::Scope;
