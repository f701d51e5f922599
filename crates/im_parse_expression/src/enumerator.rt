ghost use Rattle.std.specs.Prelude.{◌<◌, ◌^◌, length, map};
ghost use Rattle.im_tok.specs.declared.punctuator.Punctuator.TheVariants.{CloseBrace};
ghost use Rattle.im_word.specs.Shown.{shown};
ghost use Rattle.im_ctree.specs.Grammar.{IsEnumerators};
ghost use Rattle.im_parse_expression.specs.Parsing.{Parses, Below, Anything, Closed};
ghost use Rattle.im_parse_expression.specs.Declaring.{IsEnumerator, enumerator_tree};
ghost use Rattle.im_parse_expression.specs.Declaring.{enumerators_tree};

use super::expressions::conditional;
use super::look::{expect_mark, expect_name};
use super::make;
use im_ctree::Enumerator;
use im_parse_core::{Stop, TypedefNames, after_mark};
use im_tok::Punctuator;
use im_word::Word;
use std::alloc::Global;

/// The enumerators of an enum and the brace that closes them (C11 6.7.2.2), and the place behind
/// all.
#[cycle(expression)]
pub fn closed_enumerators(
    alloc: Global,
    words: &[Word],
    names: &TypedefNames,
    at: u32,
) -> Result<(Vec<Enumerator>, u32), Stop>
    requires { length words.now < 2 ^ 32 }
    ensures { Parses enumerators_tree (Closed CloseBrace (IsEnumerators names.now))
        Anything (map shown words.now) at result }
{
    let mut items = Vec::new(alloc);
    let (first, mut next) = enumerator(alloc, words, names, at)?;
    items.push(first)?;
    while let Some(behind) = after_mark(words, next, Punctuator::Comma) {
        if let Some(end) = after_mark(words, behind, Punctuator::CloseBrace) {
            return Ok((items, end));
        }
        let (item, end) = enumerator(alloc, words, names, behind)?;
        items.push(item)?;
        next = end;
    }
    let end = expect_mark(words, next, Punctuator::CloseBrace)?;
    Ok((items, end))
}

/// An enumerator (C11 6.7.2.2), and the place behind it.
#[cycle(expression)]
fn enumerator(
    alloc: Global,
    words: &[Word],
    names: &TypedefNames,
    at: u32,
) -> Result<(Enumerator, u32), Stop>
    requires { length words.now < 2 ^ 32 }
    ensures { Parses enumerator_tree (IsEnumerator names.now) (Below 2)
        (map shown words.now) at result }
{
    let (name, next) = expect_name(words, at)?;
    match after_mark(words, next, Punctuator::Assign) {
        None => {
            let tree = make::enumerator(alloc, at, name)?;
            Ok((tree, next))
        }
        Some(behind) => {
            let (value, end) = conditional(alloc, words, names, behind)?;
            let tree = make::valued_enumerator(alloc, at, name, value)?;
            Ok((tree, end))
        }
    }
}
