ghost use Rattle.std.specs.Prelude.{◌<◌, ◌^◌, length, map};
ghost use Rattle.im_tok.specs.declared.punctuator.Punctuator.TheVariants.{CloseBrace};
ghost use Rattle.im_word.specs.Shown.{shown};
ghost use Rattle.im_ctree.specs.Shape.{initializer_of};
ghost use Rattle.im_ctree.specs.Units.{IsInitializer};
ghost use Rattle.im_parse_expression.specs.Parsing.{Parses, Below, Anything, Closed};
ghost use Rattle.im_parse_expression.specs.Initializing.{IsInitializers, initializers_tree};

use super::expressions::assignment;
use super::look::expect_mark;
use super::make;
use im_ctree::Initializer;
use im_parse_core::{Stop, TypedefNames, after_mark};
use im_tok::Punctuator;
use im_word::Word;
use std::alloc::Global;

/// An initialiser (C11 6.7.9), and the place behind it.
#[cycle(initializer)]
pub fn initializer(
    alloc: Global,
    words: &[Word],
    names: &TypedefNames,
    at: u32,
) -> Result<(Initializer, u32), Stop>
    requires { length words.now < 2 ^ 32 }
    ensures { Parses initializer_of (IsInitializer names.now) (Below 2)
        (map shown words.now) at result }
{
    match after_mark(words, at, Punctuator::OpenBrace) {
        None => {
            let (value, end) = assignment(alloc, words, names, at)?;
            Ok((Initializer::Value(value), end))
        }
        Some(inside) => {
            let (items, end) = closed_initializers(alloc, words, names, inside)?;
            Ok((make::braced(at, items), end))
        }
    }
}

/// The initialisers in braces and the brace that closes them (C11 6.7.9), and the place behind all.
#[cycle(initializer)]
fn closed_initializers(
    alloc: Global,
    words: &[Word],
    names: &TypedefNames,
    at: u32,
) -> Result<(Vec<Initializer>, u32), Stop>
    requires { length words.now < 2 ^ 32 }
    ensures { Parses initializers_tree (Closed CloseBrace (IsInitializers names.now))
        Anything (map shown words.now) at result }
{
    let mut items = Vec::new(alloc);
    let (first, mut next) = initializer(alloc, words, names, at)?;
    items.push(first)?;
    while let Some(behind) = after_mark(words, next, Punctuator::Comma) {
        if let Some(end) = after_mark(words, behind, Punctuator::CloseBrace) {
            return Ok((items, end));
        }
        let (item, end) = initializer(alloc, words, names, behind)?;
        items.push(item)?;
        next = end;
    }
    let end = expect_mark(words, next, Punctuator::CloseBrace)?;
    Ok((items, end))
}
