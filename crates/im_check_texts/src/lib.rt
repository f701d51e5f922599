//! From the parts of a tree to the bytes and the numbers of the string literals that stand in them (C11 6.4.5, 6.7.9).
#![tactic(auto)]

mod declarator;
mod expression;
mod given;
mod slots;
mod specifier;
mod step;
mod string_given;

pub use declarator::{
    append_core, append_declarator, append_declarator_if_any, append_parameters, append_suffixes,
};
pub use expression::{
    append_expression, append_expression_if_any, append_expressions, append_type_name,
};
pub use given::{append_given, append_given_if_any};
pub use slots::member_type;
pub use specifier::append_specifiers;
pub use string_given::behind_given;
