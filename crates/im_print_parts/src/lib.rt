//! From words, expressions, declarators and specifiers to their text.
#![tactic(auto)]

mod chains;
mod commas;
mod declarators;
mod expressions;
mod names;
mod output;
mod specifiers;
mod tables;

pub use commas::put_comma_if;
pub use declarators::put_declarator;
pub use expressions::{put_at, put_expression};
pub use names::{begins_with_typedef, has_type, remember};
pub use output::{put_character, put_keyword, put_mark, put_name, put_number, put_text};
pub use specifiers::{put_behind_specifiers, put_specifiers};
pub use tables::{
    assign_mark, binding, operator_level, operator_mark, prefix_mark, specifier_keyword, step_mark,
};
