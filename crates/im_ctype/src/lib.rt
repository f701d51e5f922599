//! The types of the language, the table that holds them, and where the cells of an object lie.
#![tactic(auto)]

mod build;
mod cell;
mod extent;
mod integer;
pub mod laws;
mod listing;
mod member;
mod node;
mod nodes;
mod size;
mod struct_cells;
mod table;

pub use cell::Cell;
pub use extent::Extent;
pub use integer::{Integer, Traits, bytes_of_kind};
pub use listing::cells;
pub use member::{Member, MemberPlace};
pub use node::{TypeId, TypeNode};
pub use size::{align_of, cell_count, is_complete, size_of};
pub use struct_cells::cells_of_struct;
pub use table::TypeTable;
