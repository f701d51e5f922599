use super::Name;
use super::expression::Expression;
use super::specifier::Specifiers;

/// A declarator (C11 6.7.6), or an abstract one (C11 6.7.7), whose core is no name.
#[derive(Drop)]
#[cycle(tree)]
pub struct Declarator {
    /// The number of its first token.
    pub at: u32,
    pub stars: Vec<Star>,
    pub core: Core,
    pub suffixes: Vec<Suffix>,
}

/// A `*`, and how many `const` stand behind it.
#[derive(Clone, Copy, PartialEq, Eq, Debug)]
pub struct Star {
    pub consts: u32,
}

/// What a declarator's stars and suffixes stand round.
#[derive(Drop)]
#[cycle(tree)]
pub enum Core {
    /// Nothing, in an abstract declarator.
    Absent,
    Name(Name),
    /// A declarator in parentheses.
    Inner(Box<Declarator>),
}

/// A bracketed part behind a declarator's core.
#[derive(Drop)]
#[cycle(tree)]
pub struct Suffix {
    /// The number of its first token.
    pub at: u32,
    pub kind: SuffixKind,
}

/// What a suffix makes of what stands before it.
#[derive(Drop)]
#[cycle(tree)]
pub enum SuffixKind {
    /// An array, with its length where one is written (C11 6.7.6.2).
    Array(Option<Box<Expression>>),
    /// A function with its parameters (C11 6.7.6.3).
    Function(Vec<Parameter>),
}

/// A parameter (C11 6.7.6).
#[derive(Drop)]
#[cycle(tree)]
pub struct Parameter {
    pub specifiers: Specifiers,
    pub declarator: Option<Box<Declarator>>,
}

/// A type name (C11 6.7.7).
#[derive(Drop)]
#[cycle(tree)]
pub struct TypeName {
    pub specifiers: Specifiers,
    pub declarator: Option<Box<Declarator>>,
}
