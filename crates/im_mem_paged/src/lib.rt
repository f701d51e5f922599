//! From memory of 5 MiB to pages of it: which of them may hold a byte other than 0.
#![tactic(auto)]

mod marks;
mod paged;

pub use paged::{PAGE_COUNT, PAGE_SIZE, PagedMem, are_zero};
