use super::Name;
use super::declarator::Declarator;
use super::expression::Expression;

/// Declaration specifiers (C11 6.7), in the order in which they stand.
#[derive(Drop)]
#[cycle(tree)]
pub struct Specifiers {
    /// The number of their first token.
    pub at: u32,
    pub items: Vec<Specifier>,
}

/// One declaration specifier.
#[cycle(tree)]
pub struct Specifier {
    /// The number of its first token.
    pub at: u32,
    pub kind: SpecifierKind,
}

impl Drop for Specifier {
    #[cycle(tree)]
    fn drop(self) {
        let Specifier { at: _, kind: _ } = self;
    }
}

/// What a specifier is.
#[derive(Drop)]
#[cycle(tree)]
pub enum SpecifierKind {
    Word(SpecifierWord),
    TypedefName(Name),
    /// A struct with its members (C11 6.7.2.1).
    Struct(Option<Name>, Vec<Member>),
    /// A struct's tag alone.
    StructTag(Name),
    /// An enum with its enumerators (C11 6.7.2.2).
    Enum(Option<Name>, Vec<Enumerator>),
    /// An enum's tag alone.
    EnumTag(Name),
}

/// A specifier of one keyword.
#[derive(Clone, Copy, PartialEq, Eq, Debug)]
pub enum SpecifierWord {
    Typedef,
    Extern,
    Static,
    Const,
    Void,
    Char,
    Short,
    Int,
    Long,
    Signed,
    Unsigned,
}

/// A declaration of members.
#[derive(Drop)]
#[cycle(tree)]
pub struct Member {
    pub specifiers: Specifiers,
    pub declarators: Vec<Declarator>,
}

/// An enumeration constant, with its value where one is written.
#[derive(Drop)]
#[cycle(tree)]
pub struct Enumerator {
    /// The number of its first token.
    pub at: u32,
    pub name: Name,
    pub value: Option<Box<Expression>>,
}
