ghost use Rattle.std.specs.Prelude.{◌<◌, ◌^◌, length, map};
ghost use Rattle.im_tok.specs.declared.punctuator.Punctuator.TheVariants.{CloseParen};
ghost use Rattle.im_word.specs.Shown.{shown};
ghost use Rattle.im_ctree.specs.Shape.{type_name_of};
ghost use Rattle.im_ctree.specs.Grammar.{IsTypeName};
ghost use Rattle.im_parse_expression.specs.Parsing.{Parses, Anything, Closed};

use super::declarators::maybe_declarator;
use super::form::Form;
use super::look::expect_mark;
use super::make;
use super::specifier::specifiers;
use im_ctree::TypeName;
use im_parse_core::{Stop, TypedefNames};
use im_tok::Punctuator;
use im_word::Word;
use std::alloc::Global;

/// A type name and the parenthesis that closes it (C11 6.7.7), and the place behind both.
#[cycle(expression)]
pub fn closed_type_name(
    alloc: Global,
    words: &[Word],
    names: &TypedefNames,
    at: u32,
) -> Result<(TypeName, u32), Stop>
    requires { length words.now < 2 ^ 32 }
    ensures { Parses type_name_of (Closed CloseParen (IsTypeName names.now)) Anything
        (map shown words.now) at result }
{
    let (specifiers, next) = specifiers(alloc, words, names, at)?;
    let (declarator, close) = maybe_declarator(alloc, words, names, Form::Abstract, next)?;
    let end = expect_mark(words, close, Punctuator::CloseParen)?;
    let tree = make::type_name(alloc, specifiers, declarator)?;
    Ok((tree, end))
}
