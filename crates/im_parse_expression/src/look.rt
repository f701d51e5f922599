ghost use Rattle.std.specs.Prelude.{◌≡◌, ◌<◌, ◌^◌, ◌↔◌, ℕ, List, Some, IsTrue, MatchOption};
ghost use Rattle.std.specs.Prelude.{MatchResult, length, map, drop};
ghost use Rattle.im_tok.specs.declared.punctuator.Punctuator.{Punctuator};
ghost use Rattle.im_word.specs.Shown.{shown};
ghost use Rattle.im_word.specs.Words.{name, mark};
ghost use Rattle.im_parse_core.specs.declared.stop.Stop.TheVariants.{Syntax};
ghost use Rattle.im_parse_core.specs.Reads.{head};
ghost use Rattle.im_parse_core.specs.Places.{IsAt};
ghost use Rattle.im_ctree.specs.Operators as op;
ghost use Rattle.im_ctree.specs.Follow.{keyword_specifier};
ghost use Rattle.im_parse_expression.specs.Parsing.{OperatorAt, NoOperator, BeginsSpecifiers};
ghost use Rattle.im_parse_expression.specs.Parsing.{IsMarkAt};
ghost use Rattle.im_parse_expression.specs.Declaring.{WordAt, NoWord};

use super::table::{
    assign_operator, binary_operator, prefix_operator, specifier_word, step_operator,
};
use im_ctree::{AssignOp, BinaryOp, SpecifierWord, StepOp, UnaryOp};
use im_parse_core::{Stop, TypedefNames, after_mark, name_at, word_at};
use im_tok::{Keyword, Punctuator};
use im_word::Word;

/// The punctuator at this place, and the place behind it.
pub fn mark_at(words: &[Word], at: u32) -> Option<(Punctuator, u32)>
    requires { length words.now < 2 ^ 32 }
    ensures { MatchOption result
        ((m : Punctuator) → head (drop at (map shown words.now)) ≡ Some (mark m) → ⊥)
        (λ found. IsAt (mark found.0) (map shown words.now) at found.1) }
{
    let found = word_at(words, at)?;
    match found.0 {
        Word::Mark(mark) => Some((*mark, found.1)),
        _ => None,
    }
}

/// The place behind this punctuator, which has to stand at this place.
pub fn expect_mark(words: &[Word], at: u32, wanted: Punctuator) -> Result<u32, Stop>
    requires { length words.now < 2 ^ 32 }
    ensures { IsMarkAt wanted (map shown words.now) at result }
{
    match after_mark(words, at, wanted) {
        Some(next) => Ok(next),
        None => Err(Stop::Syntax(at)),
    }
}

/// The name that has to stand at this place, and the place behind it.
pub fn expect_name<'b>(words: &[Word<'b>], at: u32) -> Result<(&'b [u8], u32), Stop>
    requires { length words.now < 2 ^ 32 }
    ensures { MatchResult result (λ found. IsAt (name found.0.now) (map shown words.now) at found.1)
        (λ stop. (stop ≡ Syntax at) ×
        ((s : List ℕ) → head (drop at (map shown words.now)) ≡ Some (name s) → ⊥)) }
{
    match name_at(words, at) {
        Some(found) => Ok(found),
        None => Err(Stop::Syntax(at)),
    }
}

/// The binary operator of this level at this place, and the place behind it.
pub fn binary_at(words: &[Word], at: u32, level: u32) -> Option<(BinaryOp, u32)>
    requires { length words.now < 2 ^ 32 }
    ensures { MatchOption result (NoOperator (op.IsBinaryOperator level) (map shown words.now) at)
        (λ found. OperatorAt (op.IsBinaryOperator level) (map shown words.now) at found.0 found.1) }
{
    let (mark, next) = mark_at(words, at)?;
    match binary_operator(mark) {
        Some((operator, found)) if found == level => Some((operator, next)),
        _ => None,
    }
}

/// The assignment operator at this place, and the place behind it.
pub fn assign_at(words: &[Word], at: u32) -> Option<(AssignOp, u32)>
    requires { length words.now < 2 ^ 32 }
    ensures { MatchOption result (NoOperator op.IsAssignOperator (map shown words.now) at)
        (λ found. OperatorAt op.IsAssignOperator (map shown words.now) at found.0 found.1) }
{
    let (mark, next) = mark_at(words, at)?;
    let operator = assign_operator(mark)?;
    Some((operator, next))
}

/// `++` or `--` at this place, and the place behind it.
pub fn step_at(words: &[Word], at: u32) -> Option<(StepOp, u32)>
    requires { length words.now < 2 ^ 32 }
    ensures { MatchOption result (NoOperator op.IsStep (map shown words.now) at)
        (λ found. OperatorAt op.IsStep (map shown words.now) at found.0 found.1) }
{
    let (mark, next) = mark_at(words, at)?;
    let operator = step_operator(mark)?;
    Some((operator, next))
}

/// The unary operator at this place, and the place behind it.
pub fn prefix_at(words: &[Word], at: u32) -> Option<(UnaryOp, u32)>
    requires { length words.now < 2 ^ 32 }
    ensures { MatchOption result (NoOperator op.IsPrefix (map shown words.now) at)
        (λ found. OperatorAt op.IsPrefix (map shown words.now) at found.0 found.1) }
{
    let (mark, next) = mark_at(words, at)?;
    let operator = prefix_operator(mark)?;
    Some((operator, next))
}

/// The specifier of one keyword at this place, and the place behind it (C11 6.7.1 to 6.7.3).
pub fn specifier_word_at(words: &[Word], at: u32) -> Option<(SpecifierWord, u32)>
    requires { length words.now < 2 ^ 32 }
    ensures { MatchOption result (NoWord (map shown words.now) at)
        (λ found. WordAt (map shown words.now) at found.0 found.1) }
{
    let found = word_at(words, at)?;
    match found.0 {
        Word::Keyword(keyword) => {
            let word = specifier_word(*keyword)?;
            Some((word, found.1))
        }
        _ => None,
    }
}

/// Whether specifiers may begin with a keyword (C11 6.7).
fn is_specifier_keyword(keyword: Keyword) -> bool
    ensures { IsTrue result ↔ keyword_specifier keyword ≡ 1 }
{
    match keyword {
        Keyword::Typedef | Keyword::Extern | Keyword::Static | Keyword::Const => true,
        Keyword::Void | Keyword::Char | Keyword::Short | Keyword::Int | Keyword::Long => true,
        Keyword::Signed | Keyword::Unsigned | Keyword::Struct | Keyword::Enum => true,
        _ => false,
    }
}

/// Whether specifiers begin at this place: a keyword of theirs stands there, or a typedef name.
pub fn begins_specifiers(words: &[Word], names: &TypedefNames, at: u32) -> bool
    requires { length words.now < 2 ^ 32 }
    ensures { IsTrue result ↔ BeginsSpecifiers names.now (head (drop at (map shown words.now))) }
{
    match word_at(words, at) {
        None => false,
        Some(found) => match found.0 {
            Word::Name(name) => names.contains(name),
            Word::Keyword(keyword) => is_specifier_keyword(*keyword),
            _ => false,
        },
    }
}
