ghost use Rattle.std.specs.Prelude.{◌≡◌, ◌<◌, ◌^◌, Some, MatchOption, length, map, drop};
ghost use Rattle.im_word.specs.Shown.{shown};
ghost use Rattle.im_word.specs.Words.{keyword};
ghost use Rattle.im_parse_core.specs.Reads.{head};
ghost use Rattle.im_parse_core.specs.Places.{IsAt};
ghost use Rattle.im_parse_statement.specs.Statements as s;
ghost use Rattle.im_parse_statement.specs.declared.start.StatementStart as declared;

use im_parse_core::word_at;
use im_tok::Keyword;
use im_word::Word;

/// The keyword that a statement begins with (C11 6.8).
#[derive(Clone, Copy, PartialEq, Eq, Debug)]
pub enum StatementStart {
    If,
    While,
    Do,
    For,
    Switch,
    Case,
    Default,
    Break,
    Continue,
    Return,
}

fn keyword_start(keyword: Keyword) -> Option<StatementStart>
    ensures { result ≡ s.keyword_start keyword }
{
    match keyword {
        Keyword::If => Some(StatementStart::If),
        Keyword::While => Some(StatementStart::While),
        Keyword::Do => Some(StatementStart::Do),
        Keyword::For => Some(StatementStart::For),
        Keyword::Switch => Some(StatementStart::Switch),
        Keyword::Case => Some(StatementStart::Case),
        Keyword::Default => Some(StatementStart::Default),
        Keyword::Break => Some(StatementStart::Break),
        Keyword::Continue => Some(StatementStart::Continue),
        Keyword::Return => Some(StatementStart::Return),
        _ => None,
    }
}

/// The keyword of a statement at this place, and the place behind it.
pub fn start_at(words: &[Word], at: u32) -> Option<(StatementStart, u32)>
    requires { length words.now < 2 ^ 32 }
    ensures { MatchOption result ((start : declared.StatementStart) → head
        (drop at (map shown words.now)) ≡ Some (keyword (s.start_keyword start)) → ⊥)
        (λ found. IsAt (keyword (s.start_keyword found.0)) (map shown words.now) at found.1) }
{
    let found = word_at(words, at)?;
    match found.0 {
        Word::Keyword(keyword) => {
            let start = keyword_start(*keyword)?;
            Some((start, found.1))
        }
        _ => None,
    }
}
