ghost use Rattle.std.specs.Prelude.{◌≡◌};
ghost use Rattle.im_print_relation.specs.Printed as printed;
ghost use Rattle.im_ctree_parts.specs.Lists.{expression_in};

use im_ctree::{AssignOp, BinaryOp, Expression, ExpressionKind, SpecifierWord, StepOp, UnaryOp};
use im_tok::{Keyword, Punctuator};

/// The level of a binary operator, of which 0 binds loosest (C11 6.5.5 to 6.5.14).
pub fn operator_level(op: BinaryOp) -> u8
    ensures { result ≡ printed.operator_level op }
{
    match op {
        BinaryOp::Or => 0,
        BinaryOp::And => 1,
        BinaryOp::BitOr => 2,
        BinaryOp::BitXor => 3,
        BinaryOp::BitAnd => 4,
        BinaryOp::Equal | BinaryOp::NotEqual => 5,
        BinaryOp::Less | BinaryOp::Greater | BinaryOp::LessEqual | BinaryOp::GreaterEqual => 6,
        BinaryOp::ShiftLeft | BinaryOp::ShiftRight => 7,
        BinaryOp::Add | BinaryOp::Subtract => 8,
        BinaryOp::Multiply | BinaryOp::Divide | BinaryOp::Remainder => 9,
    }
}

/// The punctuator of a binary operator (C11 6.5.5 to 6.5.14).
pub fn operator_mark(op: BinaryOp) -> Punctuator
    ensures { result ≡ printed.operator_mark op }
{
    match op {
        BinaryOp::Or => Punctuator::OrOr,
        BinaryOp::And => Punctuator::AndAnd,
        BinaryOp::BitOr => Punctuator::Bar,
        BinaryOp::BitXor => Punctuator::Caret,
        BinaryOp::BitAnd => Punctuator::Ampersand,
        BinaryOp::Equal => Punctuator::EqualEqual,
        BinaryOp::NotEqual => Punctuator::NotEqual,
        BinaryOp::Less => Punctuator::Less,
        BinaryOp::Greater => Punctuator::Greater,
        BinaryOp::LessEqual => Punctuator::LessEqual,
        BinaryOp::GreaterEqual => Punctuator::GreaterEqual,
        BinaryOp::ShiftLeft => Punctuator::ShiftLeft,
        BinaryOp::ShiftRight => Punctuator::ShiftRight,
        BinaryOp::Add => Punctuator::Plus,
        BinaryOp::Subtract => Punctuator::Minus,
        BinaryOp::Multiply => Punctuator::Star,
        BinaryOp::Divide => Punctuator::Slash,
        BinaryOp::Remainder => Punctuator::Percent,
    }
}

/// The punctuator of an assignment (C11 6.5.16).
pub fn assign_mark(op: AssignOp) -> Punctuator
    ensures { result ≡ printed.assign_mark op }
{
    match op {
        AssignOp::Plain => Punctuator::Assign,
        AssignOp::Multiply => Punctuator::StarAssign,
        AssignOp::Divide => Punctuator::SlashAssign,
        AssignOp::Remainder => Punctuator::PercentAssign,
        AssignOp::Add => Punctuator::PlusAssign,
        AssignOp::Subtract => Punctuator::MinusAssign,
        AssignOp::ShiftLeft => Punctuator::ShiftLeftAssign,
        AssignOp::ShiftRight => Punctuator::ShiftRightAssign,
        AssignOp::BitAnd => Punctuator::AndAssign,
        AssignOp::BitXor => Punctuator::XorAssign,
        AssignOp::BitOr => Punctuator::OrAssign,
    }
}

/// The punctuator of `++` or `--` (C11 6.5.2.4, 6.5.3.1).
pub fn step_mark(op: StepOp) -> Punctuator
    ensures { result ≡ printed.step_mark op }
{
    match op {
        StepOp::Increment => Punctuator::Increment,
        StepOp::Decrement => Punctuator::Decrement,
    }
}

/// The punctuator of a unary operator (C11 6.5.3).
pub fn prefix_mark(op: UnaryOp) -> Punctuator
    ensures { result ≡ printed.prefix_mark op }
{
    match op {
        UnaryOp::AddressOf => Punctuator::Ampersand,
        UnaryOp::Dereference => Punctuator::Star,
        UnaryOp::Plus => Punctuator::Plus,
        UnaryOp::Minus => Punctuator::Minus,
        UnaryOp::BitNot => Punctuator::Tilde,
        UnaryOp::Not => Punctuator::Exclamation,
    }
}

/// The keyword of a declaration specifier (C11 6.7.1 to 6.7.3).
pub fn specifier_keyword(word: SpecifierWord) -> Keyword
    ensures { result ≡ printed.specifier_keyword word }
{
    match word {
        SpecifierWord::Typedef => Keyword::Typedef,
        SpecifierWord::Extern => Keyword::Extern,
        SpecifierWord::Static => Keyword::Static,
        SpecifierWord::Const => Keyword::Const,
        SpecifierWord::Void => Keyword::Void,
        SpecifierWord::Char => Keyword::Char,
        SpecifierWord::Short => Keyword::Short,
        SpecifierWord::Int => Keyword::Int,
        SpecifierWord::Long => Keyword::Long,
        SpecifierWord::Signed => Keyword::Signed,
        SpecifierWord::Unsigned => Keyword::Unsigned,
    }
}

/// How tightly an expression binds (C11 6.5.1 to 6.5.17).
pub fn binding(e: &Expression) -> u8
    ensures { result ≡ printed.binding (expression_in e.now) }
{
    match &e.kind {
        ExpressionKind::Identifier(_)
        | ExpressionKind::Number(_)
        | ExpressionKind::Character(_)
        | ExpressionKind::Text(_) => 16,
        ExpressionKind::Index(_, _)
        | ExpressionKind::Call(_, _)
        | ExpressionKind::Member(_, _)
        | ExpressionKind::Arrow(_, _)
        | ExpressionKind::PostStep(_, _) => 15,
        ExpressionKind::PreStep(_, _)
        | ExpressionKind::Unary(_, _)
        | ExpressionKind::SizeOfExpression(_)
        | ExpressionKind::SizeOfType(_) => 14,
        ExpressionKind::Cast(_, _) => 13,
        ExpressionKind::Binary(op, _, _) => 3 + operator_level(*op),
        ExpressionKind::Conditional(_, _, _) => 2,
        ExpressionKind::Assign(_, _, _) => 1,
        ExpressionKind::Comma(_, _) => 0,
    }
}
