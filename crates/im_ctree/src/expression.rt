use super::Name;
use super::declarator::TypeName;
use super::operator::{AssignOp, BinaryOp, StepOp, UnaryOp};
use im_tok::Number;

/// An expression (C11 6.5).
#[cycle(tree)]
pub struct Expression {
    /// The number of its first token.
    pub at: u32,
    pub kind: ExpressionKind,
}

impl Drop for Expression {
    /// A loop goes down first operands and what is cast, so that chains of them take no stack.
    #[cycle(tree)]
    fn drop(mut self) {
        loop {
            let Expression { at: _, kind } = self;
            match kind {
                ExpressionKind::Index(first, _by) => self = Box::into_inner(first),
                ExpressionKind::Call(first, _arguments) => self = Box::into_inner(first),
                ExpressionKind::Cast(_name, first) => self = Box::into_inner(first),
                ExpressionKind::Comma(first, _second) => self = Box::into_inner(first),
                _ => return,
            }
        }
    }
}

/// What an expression is; parentheses are not kept.
#[derive(Drop)]
#[cycle(tree)]
pub enum ExpressionKind {
    Identifier(Name),
    Number(Number),
    Character(u8),
    /// The bytes of a string literal, those of literals side by side together.
    Text(Name),
    Index(Box<Expression>, Box<Expression>),
    Call(Box<Expression>, Vec<Expression>),
    Member(Box<Expression>, Name),
    Arrow(Box<Expression>, Name),
    PostStep(StepOp, Box<Expression>),
    PreStep(StepOp, Box<Expression>),
    Unary(UnaryOp, Box<Expression>),
    SizeOfExpression(Box<Expression>),
    SizeOfType(Box<TypeName>),
    Cast(Box<TypeName>, Box<Expression>),
    Binary(BinaryOp, Box<Expression>, Box<Expression>),
    /// `a ? b : c`
    Conditional(Box<Expression>, Box<Expression>, Box<Expression>),
    Assign(AssignOp, Box<Expression>, Box<Expression>),
    Comma(Box<Expression>, Box<Expression>),
}
