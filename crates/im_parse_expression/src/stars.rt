ghost use Rattle.std.specs.Prelude.{◌<◌, ◌^◌, length, map};
ghost use Rattle.im_word.specs.Shown.{shown};
ghost use Rattle.im_parse_core.specs.Places.{ReadsAt};
ghost use Rattle.im_parse_expression.specs.Parsing.{Parses};
ghost use Rattle.im_parse_expression.specs.Declaring.{Stars, AfterStars, Consts, AfterConsts};
ghost use Rattle.im_parse_expression.specs.Declaring.{stars_tree};

use im_ctree::Star;
use im_parse_core::{Stop, after_keyword, after_mark};
use im_tok::{Keyword, Punctuator};
use im_word::Word;
use std::alloc::Global;

/// How many `const` stand at this place side by side, and the place behind them.
fn consts(words: &[Word], at: u32) -> (u32, u32)
    requires { length words.now < 2 ^ 32 }
    ensures { ReadsAt Consts AfterConsts (map shown words.now) at result.0 result.1 }
{
    let mut count = 0;
    let mut next = at;
    while let Some(behind) = after_keyword(words, next, Keyword::Const) {
        count += 1;
        next = behind;
    }
    (count, next)
}

/// The stars at this place, each with the `const` behind it (C11 6.7.6.1), and the place behind
/// them.
pub fn stars(alloc: Global, words: &[Word], at: u32) -> Result<(Vec<Star>, u32), Stop>
    requires { length words.now < 2 ^ 32 }
    ensures { Parses stars_tree Stars AfterStars (map shown words.now) at result }
{
    let mut items = Vec::new(alloc);
    let mut next = at;
    while let Some(behind) = after_mark(words, next, Punctuator::Star) {
        let (consts, end) = consts(words, behind);
        items.push(Star { consts })?;
        next = end;
    }
    Ok((items, next))
}
