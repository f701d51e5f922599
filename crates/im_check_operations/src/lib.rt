//! From the values of operands to what an operator, a pointer's step or an assignment makes of them (C11 6.5).
#![tactic(auto)]

mod assignments;
mod binary;
mod choice;
mod compare;
mod pointers;
mod unary;

pub use assignments::{assigned, operator_of, stepped};
pub use binary::{operation, sum};
pub use choice::{chosen, joined};
pub use pointers::{
    addressed, bytes_of, distance, element_size, moved_before, moved_behind, pointed,
    target_constant, target_of,
};
pub use unary::{casted, negated, promoted_value, unary_operation};
