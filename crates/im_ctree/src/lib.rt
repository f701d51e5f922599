//! From words to the syntax tree that they spell: the tree, and the grammar of C11 6.5 to 6.9.
#![tactic(auto)]

mod declaration;
mod declarator;
mod examples;
mod expression;
mod laws;
mod operator;
mod specifier;
mod statement;
mod unit;

pub use declaration::{Declaration, InitDeclarator, Initializer};
pub use declarator::{Core, Declarator, Parameter, Star, Suffix, SuffixKind, TypeName};
pub use examples::{
    assignment_example, cast_examples, declaration_examples, parameter_example, program_example,
    scope_example, sizeof_examples, statement_examples,
};
pub use expression::{Expression, ExpressionKind};
pub use laws::{
    fronts_are_prefixes_law, unique_declarator_law, unique_expression_law, unique_unit_law,
    unit_nonempty_law,
};
pub use operator::{AssignOp, BinaryOp, StepOp, UnaryOp};
pub use specifier::{Enumerator, Member, Specifier, SpecifierKind, SpecifierWord, Specifiers};
pub use statement::{Block, BlockItem, ForInit, Statement, StatementKind};
pub use unit::{External, Function, Tree};

/// A name's bytes.
pub type Name = Vec<u8>;
