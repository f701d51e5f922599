use super::declaration::Declaration;
use super::expression::Expression;

/// A block (C11 6.8.2).
#[derive(Drop)]
#[cycle(statement)]
pub struct Block {
    /// The number of its first token.
    pub at: u32,
    pub items: Vec<BlockItem>,
}

/// What stands in a block.
#[cycle(statement)]
pub enum BlockItem {
    Declaration(Declaration),
    Statement(Statement),
}

impl Drop for BlockItem {
    #[cycle(statement)]
    fn drop(self) {
        match self {
            BlockItem::Declaration(_) => {}
            BlockItem::Statement(_) => {}
        }
    }
}

/// A statement (C11 6.8).
#[cycle(statement)]
pub struct Statement {
    /// The number of its first token.
    pub at: u32,
    pub kind: StatementKind,
}

impl Drop for Statement {
    #[cycle(statement)]
    fn drop(self) {
        let Statement { at: _, kind: _ } = self;
    }
}

/// What a statement is.
#[derive(Drop)]
#[cycle(statement)]
pub enum StatementKind {
    Block(Block),
    Expression(Option<Expression>),
    If(Expression, Box<Statement>, Option<Box<Statement>>),
    While(Expression, Box<Statement>),
    DoWhile(Box<Statement>, Expression),
    /// What it begins with, its condition, what ends each turn, its body.
    For(ForInit, Option<Expression>, Option<Expression>, Box<Statement>),
    Switch(Expression, Block),
    Case(Expression, Box<Statement>),
    Default(Box<Statement>),
    Break,
    Continue,
    Return(Option<Expression>),
}

/// What a `for` begins with.
#[derive(Drop)]
pub enum ForInit {
    Declaration(Declaration),
    Expression(Option<Expression>),
}
