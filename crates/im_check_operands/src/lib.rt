//! From the term of an expression to what the rules see of it, and what they say of operands.
#![tactic(auto)]

mod asked;
mod free;
mod operand;
mod operands;
mod rules;
mod term;

pub use free::{is_free, is_struct_free};
pub use operand::{Operand, operand_of};
pub use operands::rule_of;
pub use rules::{
    allows, are_alike, casts, fits, has_size, is_changeable, is_indexed, is_integer_term,
    is_lvalue, is_pointer_to_complete, is_scalar_term, may_step, may_update,
};
pub use term::{Term, Value};
