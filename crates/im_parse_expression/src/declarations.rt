ghost use Rattle.std.specs.Prelude.{◌<◌, ◌^◌, length, map};
ghost use Rattle.im_tok.specs.declared.punctuator.Punctuator.TheVariants.{Semicolon};
ghost use Rattle.im_word.specs.Shown.{shown};
ghost use Rattle.im_ctree.specs.Shape.{declaration_of, declarator_of};
ghost use Rattle.im_ctree.specs.Units.{IsDeclaration, IsInitDeclarators, IsMaybeInitializer};
ghost use Rattle.im_parse_expression.specs.Parsing.{Parses, Below, Anything, Closed};
ghost use Rattle.im_parse_expression.specs.Declaring.{AfterParameter};
ghost use Rattle.im_parse_expression.specs.Initializing.{InitsBehind, IsInitDeclarator};
ghost use Rattle.im_parse_expression.specs.Initializing.{init_declarator_tree};
ghost use Rattle.im_parse_expression.specs.Initializing.{init_declarators_tree};
ghost use Rattle.im_parse_expression.specs.Initializing.{maybe_initializer_tree};

use super::declarators::declarator;
use super::form::Form;
use super::initializers::initializer;
use super::look::expect_mark;
use super::specifier::specifiers;
use im_ctree::{Declaration, Declarator, InitDeclarator, Initializer};
use im_parse_core::{Stop, TypedefNames, after_mark};
use im_tok::Punctuator;
use im_word::Word;
use std::alloc::Global;

/// A declaration (C11 6.7), and the place behind it.
pub fn declaration(
    alloc: Global,
    words: &[Word],
    names: &TypedefNames,
    at: u32,
) -> Result<(Declaration, u32), Stop>
    requires { length words.now < 2 ^ 32 }
    ensures { Parses declaration_of (IsDeclaration names.now) Anything
        (map shown words.now) at result }
{
    let (specifiers, next) = specifiers(alloc, words, names, at)?;
    if let Some(end) = after_mark(words, next, Punctuator::Semicolon) {
        let declarators = Vec::new(alloc);
        return Ok((
            Declaration {
                specifiers,
                declarators,
            },
            end,
        ));
    }
    let (declarators, end) = closed_init_declarators(alloc, words, names, next)?;
    Ok((
        Declaration {
            specifiers,
            declarators,
        },
        end,
    ))
}

/// The declarators of a declaration and the semicolon behind them (C11 6.7), and the place behind
/// all.
pub fn closed_init_declarators(
    alloc: Global,
    words: &[Word],
    names: &TypedefNames,
    at: u32,
) -> Result<(Vec<InitDeclarator>, u32), Stop>
    requires { length words.now < 2 ^ 32 }
    ensures { Parses init_declarators_tree (Closed Semicolon (IsInitDeclarators names.now)) Anything
        (map shown words.now) at result }
{
    let mut items = Vec::new(alloc);
    let (first, mut next) = init_declarator(alloc, words, names, at)?;
    items.push(first)?;
    while let Some(behind) = after_mark(words, next, Punctuator::Comma) {
        let (item, end) = init_declarator(alloc, words, names, behind)?;
        items.push(item)?;
        next = end;
    }
    let end = expect_mark(words, next, Punctuator::Semicolon)?;
    items.shrink_to_fit();
    Ok((items, end))
}

/// What stands behind the first declarator of a declaration, to the semicolon (C11 6.7), and the
/// place behind it.
pub fn closed_inits_behind(
    alloc: Global,
    words: &[Word],
    names: &TypedefNames,
    first: Declarator,
    at: u32,
) -> Result<(Vec<InitDeclarator>, u32), Stop>
    requires { length words.now < 2 ^ 32 }
    ensures { Parses init_declarators_tree
        (Closed Semicolon (InitsBehind names.now (declarator_of first))) Anything
        (map shown words.now) at result }
{
    let mut items = Vec::new(alloc);
    let (initializer, mut next) = maybe_initializer(alloc, words, names, at)?;
    items.push(InitDeclarator {
        declarator: first,
        initializer,
    })?;
    while let Some(behind) = after_mark(words, next, Punctuator::Comma) {
        let (item, end) = init_declarator(alloc, words, names, behind)?;
        items.push(item)?;
        next = end;
    }
    let end = expect_mark(words, next, Punctuator::Semicolon)?;
    items.shrink_to_fit();
    Ok((items, end))
}

/// A declarator with its initialiser where one is written (C11 6.7), and the place behind both.
fn init_declarator(
    alloc: Global,
    words: &[Word],
    names: &TypedefNames,
    at: u32,
) -> Result<(InitDeclarator, u32), Stop>
    requires { length words.now < 2 ^ 32 }
    ensures { Parses init_declarator_tree (IsInitDeclarator names.now) AfterParameter
        (map shown words.now) at result }
{
    let (declarator, next) = declarator(alloc, words, names, Form::Declared, at)?;
    let (initializer, end) = maybe_initializer(alloc, words, names, next)?;
    Ok((
        InitDeclarator {
            declarator,
            initializer,
        },
        end,
    ))
}

/// The initialiser behind a declarator, where one is written (C11 6.7), and the place behind it.
fn maybe_initializer(
    alloc: Global,
    words: &[Word],
    names: &TypedefNames,
    at: u32,
) -> Result<(Option<Initializer>, u32), Stop>
    requires { length words.now < 2 ^ 32 }
    ensures { Parses maybe_initializer_tree (IsMaybeInitializer names.now) (Below 2)
        (map shown words.now) at result }
{
    match after_mark(words, at, Punctuator::Assign) {
        None => Ok((None, at)),
        Some(behind) => {
            let (value, end) = initializer(alloc, words, names, behind)?;
            Ok((Some(value), end))
        }
    }
}
