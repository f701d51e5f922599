//! From expressions, type names and declarators to their terms and types, or the rule that a node breaks.
#![tactic(auto)]

mod declarators;
mod expressions;
mod formals;
mod leaves;
mod links;
mod operands;
mod suffixes;
mod type_names;

pub use declarators::{declarator, declarator_if_any};
pub use expressions::expression;
pub use formals::{parameters, parameters_here};
pub use type_names::type_name;
