ghost use Rattle.std.specs.Prelude.{◌≡◌};
ghost use Rattle.im_word.specs.Shown.{shown};
ghost use Rattle.im_word.specs.Roles.{keyword_role, mark_role, role_of};

use super::word::Word;
use im_tok::{Keyword, Punctuator};

/// What a word is to the nesting.
#[derive(Clone, Copy, PartialEq, Eq, Debug)]
pub enum Role {
    /// It opens a level.
    Opens,
    /// It closes a level.
    Closes,
    /// `}` closes a level and ends a statement.
    ClosesBrace,
    Semicolon,
    Comma,
    /// `else` keeps the weight of what stands before it.
    Else,
    /// `while` chooses, and may end a `do`.
    While,
    /// `do` chooses.
    Do,
    /// It adds to the weight of its level, also behind a comma.
    Chooses,
    /// It adds to the weight of its level.
    Weighs,
    Neutral,
}

fn keyword_role(keyword: Keyword) -> Role
    ensures { result ≡ keyword_role keyword }
{
    match keyword {
        Keyword::Else => Role::Else,
        Keyword::While => Role::While,
        Keyword::Do => Role::Do,
        Keyword::If | Keyword::For | Keyword::Switch | Keyword::Case | Keyword::Default => {
            Role::Chooses
        }
        Keyword::Sizeof => Role::Weighs,
        _ => Role::Neutral,
    }
}

fn mark_role(mark: Punctuator) -> Role
    ensures { result ≡ mark_role mark }
{
    match mark {
        Punctuator::OpenParen | Punctuator::OpenBracket | Punctuator::OpenBrace => Role::Opens,
        Punctuator::CloseParen | Punctuator::CloseBracket => Role::Closes,
        Punctuator::CloseBrace => Role::ClosesBrace,
        Punctuator::Semicolon => Role::Semicolon,
        Punctuator::Comma => Role::Comma,
        Punctuator::Colon | Punctuator::Ellipsis => Role::Neutral,
        Punctuator::Question => Role::Chooses,
        _ => Role::Weighs,
    }
}

/// What a word is to the nesting.
pub fn role_of_word(word: &Word) -> Role
    ensures { result ≡ role_of (shown word.now) }
{
    match word {
        Word::Keyword(keyword) => keyword_role(*keyword),
        Word::Mark(mark) => mark_role(*mark),
        _ => Role::Neutral,
    }
}
