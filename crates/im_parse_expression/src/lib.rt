//! From words to the syntax tree that they spell, or the place of the first that none goes on with.
#![tactic(auto)]

mod ahead;
mod around;
mod build;
mod casts;
mod core_start;
mod declarations;
mod declarators;
mod enumerator;
mod expressions;
mod form;
mod initializers;
mod look;
mod make;
mod member;
mod parameter;
mod postfix;
mod specifier;
mod stars;
mod table;
mod text;
mod type_name;

pub use declarations::{closed_init_declarators, closed_inits_behind, declaration};
pub use declarators::declarator;
pub use expressions::{assignment, conditional, expression};
pub use form::Form;
pub use initializers::initializer;
pub use look::{begins_specifiers, expect_mark, expect_name};
pub use specifier::specifiers;
pub use type_name::closed_type_name;
