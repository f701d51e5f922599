ghost use Rattle.std.specs.Prelude.{◌≡◌};
ghost use Rattle.im_parse_expression.specs.Tables as table;

use im_ctree::{AssignOp, BinaryOp, SpecifierWord, StepOp, UnaryOp};
use im_tok::{Keyword, Punctuator};

/// The binary operator that a punctuator stands for, and its level, of which 0 binds loosest (C11
/// 6.5.5 to 6.5.14).
pub fn binary_operator(mark: Punctuator) -> Option<(BinaryOp, u32)>
    ensures { result ≡ table.binary_operator mark }
{
    match mark {
        Punctuator::OrOr => Some((BinaryOp::Or, 0)),
        Punctuator::AndAnd => Some((BinaryOp::And, 1)),
        Punctuator::Bar => Some((BinaryOp::BitOr, 2)),
        Punctuator::Caret => Some((BinaryOp::BitXor, 3)),
        Punctuator::Ampersand => Some((BinaryOp::BitAnd, 4)),
        Punctuator::EqualEqual => Some((BinaryOp::Equal, 5)),
        Punctuator::NotEqual => Some((BinaryOp::NotEqual, 5)),
        Punctuator::Less => Some((BinaryOp::Less, 6)),
        Punctuator::Greater => Some((BinaryOp::Greater, 6)),
        Punctuator::LessEqual => Some((BinaryOp::LessEqual, 6)),
        Punctuator::GreaterEqual => Some((BinaryOp::GreaterEqual, 6)),
        Punctuator::ShiftLeft => Some((BinaryOp::ShiftLeft, 7)),
        Punctuator::ShiftRight => Some((BinaryOp::ShiftRight, 7)),
        Punctuator::Plus => Some((BinaryOp::Add, 8)),
        Punctuator::Minus => Some((BinaryOp::Subtract, 8)),
        Punctuator::Star => Some((BinaryOp::Multiply, 9)),
        Punctuator::Slash => Some((BinaryOp::Divide, 9)),
        Punctuator::Percent => Some((BinaryOp::Remainder, 9)),
        _ => None,
    }
}

/// The assignment operator that a punctuator stands for (C11 6.5.16).
pub fn assign_operator(mark: Punctuator) -> Option<AssignOp>
    ensures { result ≡ table.assign_operator mark }
{
    match mark {
        Punctuator::Assign => Some(AssignOp::Plain),
        Punctuator::StarAssign => Some(AssignOp::Multiply),
        Punctuator::SlashAssign => Some(AssignOp::Divide),
        Punctuator::PercentAssign => Some(AssignOp::Remainder),
        Punctuator::PlusAssign => Some(AssignOp::Add),
        Punctuator::MinusAssign => Some(AssignOp::Subtract),
        Punctuator::ShiftLeftAssign => Some(AssignOp::ShiftLeft),
        Punctuator::ShiftRightAssign => Some(AssignOp::ShiftRight),
        Punctuator::AndAssign => Some(AssignOp::BitAnd),
        Punctuator::XorAssign => Some(AssignOp::BitXor),
        Punctuator::OrAssign => Some(AssignOp::BitOr),
        _ => None,
    }
}

/// `++` or `--`, where a punctuator is one (C11 6.5.2.4, 6.5.3.1).
pub fn step_operator(mark: Punctuator) -> Option<StepOp>
    ensures { result ≡ table.step_operator mark }
{
    match mark {
        Punctuator::Increment => Some(StepOp::Increment),
        Punctuator::Decrement => Some(StepOp::Decrement),
        _ => None,
    }
}

/// The unary operator that a punctuator stands for (C11 6.5.3.2, 6.5.3.3).
pub fn prefix_operator(mark: Punctuator) -> Option<UnaryOp>
    ensures { result ≡ table.prefix_operator mark }
{
    match mark {
        Punctuator::Ampersand => Some(UnaryOp::AddressOf),
        Punctuator::Star => Some(UnaryOp::Dereference),
        Punctuator::Plus => Some(UnaryOp::Plus),
        Punctuator::Minus => Some(UnaryOp::Minus),
        Punctuator::Tilde => Some(UnaryOp::BitNot),
        Punctuator::Exclamation => Some(UnaryOp::Not),
        _ => None,
    }
}

/// The specifier of one keyword that a keyword is (C11 6.7.1 to 6.7.3).
pub fn specifier_word(keyword: Keyword) -> Option<SpecifierWord>
    ensures { result ≡ table.specifier_word keyword }
{
    match keyword {
        Keyword::Typedef => Some(SpecifierWord::Typedef),
        Keyword::Extern => Some(SpecifierWord::Extern),
        Keyword::Static => Some(SpecifierWord::Static),
        Keyword::Const => Some(SpecifierWord::Const),
        Keyword::Void => Some(SpecifierWord::Void),
        Keyword::Char => Some(SpecifierWord::Char),
        Keyword::Short => Some(SpecifierWord::Short),
        Keyword::Int => Some(SpecifierWord::Int),
        Keyword::Long => Some(SpecifierWord::Long),
        Keyword::Signed => Some(SpecifierWord::Signed),
        Keyword::Unsigned => Some(SpecifierWord::Unsigned),
        _ => None,
    }
}
