//! The typed program, in which each conversion is written out, and what it means.
#![tactic(auto)]

mod counts;
mod examples;
mod expression;
mod frames;
mod laws;
mod program;
mod statement;
mod structs;

pub use counts::{need, nodes};
pub use examples::{
    activations, dead_pointers, endless_loop, initialisers, input_and_output, left_to_right,
    missing_result, null_pointer, order_by_kind, pointers, quotient_overflow, recursion,
    recursive_main, rows, shifts, struct_access, struct_copies, struct_values, switch_statement,
    truncation, uninitialised_read, wrapping, zero_divisor,
};
pub use expression::{Access, Change, Expr, Place};
pub use frames::{Frame, Frames};
pub use laws::{
    bound_law, end_law, fuel_law, more_fuel_law, statics_law, values_law, well_typed_examples,
};
pub use program::{Constant, Func, Object, Prog, Static};
pub use statement::{Case, Piece, Stmt};
pub use structs::more_structs_law;
