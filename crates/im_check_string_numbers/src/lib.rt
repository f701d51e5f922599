//! From the parts of a tree to the number of the string literal that comes next behind them.
#![tactic(auto)]

mod chain;
mod declarator;
mod expression;
mod specifier;
mod step;

pub use chain::first_operand;
pub use declarator::{
    behind_core, behind_declarator, behind_declarator_if_any, behind_parameters, behind_suffixes,
};
pub use expression::{
    behind_expression, behind_expression_if_any, behind_expressions, behind_type_name,
};
pub use specifier::behind_specifiers;
