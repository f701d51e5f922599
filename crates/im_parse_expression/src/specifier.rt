ghost use Rattle.std.specs.Prelude.{◌≡◌, ◌<◌, ◌^◌, IfOk, Some, length, map, drop};
ghost use Rattle.im_tok.specs.declared.keyword.Keyword.TheVariants.{Struct, Enum};
ghost use Rattle.im_word.specs.Shown.{shown};
ghost use Rattle.im_word.specs.Words.{keyword};
ghost use Rattle.im_ctree.specs.Shape.{specifiers_of};
ghost use Rattle.im_ctree.specs.Typedefs.{has_type};
ghost use Rattle.im_ctree.specs.Grammar.{IsSpecifier, IsSpecifiers};
ghost use Rattle.im_parse_core.specs.Reads.{head};
ghost use Rattle.im_parse_expression.specs.Parsing.{Parses};
ghost use Rattle.im_parse_expression.specs.Declaring.{GoesOn, Unbraced, AfterSpecifiers};
ghost use Rattle.im_parse_expression.specs.Declaring.{IsStructRest, IsEnumRest, specifier_tree};

use super::ahead::{adds_type, specifier_ahead};
use super::enumerator::closed_enumerators;
use super::look::{expect_mark, specifier_word_at};
use super::make;
use super::member::closed_members;
use im_ctree::{Specifier, SpecifierKind, Specifiers};
use im_parse_core::{Stop, TypedefNames, after_keyword, after_mark, name_at};
use im_tok::{Keyword, Punctuator};
use im_word::Word;
use std::alloc::Global;

/// Declaration specifiers (C11 6.7), and the place behind them, where no specifier stands.
#[cycle(expression)]
pub fn specifiers(
    alloc: Global,
    words: &[Word],
    names: &TypedefNames,
    at: u32,
) -> Result<(Specifiers, u32), Stop>
    requires { length words.now < 2 ^ 32 }
    ensures parses { Parses specifiers_of (IsSpecifiers names.now)
        (AfterSpecifiers names.now) (map shown words.now) at result }
    ensures behind { IfOk result (λ read. GoesOn names.now
        (has_type (specifiers_of read.0)) (head (drop read.1 (map shown words.now))) → ⊥) }
{
    let (first, mut next) = specifier(alloc, words, names, false, at)?;
    let mut typed = adds_type(false, &first);
    let mut items = Vec::new(alloc);
    items.push(first)?;
    while specifier_ahead(words, names, typed, next) {
        let (item, end) = specifier(alloc, words, names, typed, next)?;
        typed = adds_type(typed, &item);
        items.push(item)?;
        next = end;
    }
    Ok((make::specifiers(at, items), next))
}

/// One declaration specifier (C11 6.7), and the place behind it; `typed` says whether a type stands
/// before it.
#[cycle(expression)]
fn specifier(
    alloc: Global,
    words: &[Word],
    names: &TypedefNames,
    typed: bool,
    at: u32,
) -> Result<(Specifier, u32), Stop>
    requires { length words.now < 2 ^ 32 }
    ensures { Parses specifier_tree (IsSpecifier names.now typed) Unbraced
        (map shown words.now) at result }
{
    if let Some(behind) = after_keyword(words, at, Keyword::Struct) {
        return struct_specifier(alloc, words, names, at, behind);
    }
    if let Some(behind) = after_keyword(words, at, Keyword::Enum) {
        return enum_specifier(alloc, words, names, at, behind);
    }
    single_specifier(alloc, words, names, typed, at)
}

/// A specifier of one word, and the place behind it; `typed` says whether a type stands before it.
fn single_specifier(
    alloc: Global,
    words: &[Word],
    names: &TypedefNames,
    typed: bool,
    at: u32,
) -> Result<(Specifier, u32), Stop>
    requires short { length words.now < 2 ^ 32 }
    requires no_struct { head (drop at (map shown words.now)) ≡ Some (keyword Struct) → ⊥ }
    requires no_enum { head (drop at (map shown words.now)) ≡ Some (keyword Enum) → ⊥ }
    ensures { Parses specifier_tree (IsSpecifier names.now typed) Unbraced
        (map shown words.now) at result }
{
    if let Some((word, next)) = specifier_word_at(words, at) {
        let kind = SpecifierKind::Word(word);
        return Ok((Specifier { at, kind }, next));
    }
    match name_at(words, at) {
        Some((name, next)) => {
            if typed {
                return Err(Stop::Syntax(at));
            }
            if !names.contains(name) {
                return Err(Stop::Syntax(at));
            }
            let tree = make::typedef_name(alloc, at, name)?;
            Ok((tree, next))
        }
        None => Err(Stop::Syntax(at)),
    }
}

/// The rest of a struct specifier at place `at`, from the place behind the word on (C11 6.7.2.1).
#[cycle(expression)]
fn struct_specifier(
    alloc: Global,
    words: &[Word],
    names: &TypedefNames,
    at: u32,
    behind: u32,
) -> Result<(Specifier, u32), Stop>
    requires { length words.now < 2 ^ 32 }
    ensures { Parses specifier_tree (IsStructRest names.now at) Unbraced
        (map shown words.now) behind result }
{
    match name_at(words, behind) {
        None => {
            let inside = expect_mark(words, behind, Punctuator::OpenBrace)?;
            let (members, end) = closed_members(alloc, words, names, inside)?;
            Ok((make::struct_specifier(at, members), end))
        }
        Some((name, next)) => match after_mark(words, next, Punctuator::OpenBrace) {
            None => {
                let tree = make::struct_tag(alloc, at, name)?;
                Ok((tree, next))
            }
            Some(inside) => {
                let (members, end) = closed_members(alloc, words, names, inside)?;
                let tree = make::named_struct(alloc, at, name, members)?;
                Ok((tree, end))
            }
        },
    }
}

/// The rest of an enum specifier at place `at`, from the place behind the word on (C11 6.7.2.2).
#[cycle(expression)]
fn enum_specifier(
    alloc: Global,
    words: &[Word],
    names: &TypedefNames,
    at: u32,
    behind: u32,
) -> Result<(Specifier, u32), Stop>
    requires { length words.now < 2 ^ 32 }
    ensures { Parses specifier_tree (IsEnumRest names.now at) Unbraced
        (map shown words.now) behind result }
{
    match name_at(words, behind) {
        None => {
            let inside = expect_mark(words, behind, Punctuator::OpenBrace)?;
            let (enumerators, end) = closed_enumerators(alloc, words, names, inside)?;
            Ok((make::enum_specifier(at, enumerators), end))
        }
        Some((name, next)) => match after_mark(words, next, Punctuator::OpenBrace) {
            None => {
                let tree = make::enum_tag(alloc, at, name)?;
                Ok((tree, next))
            }
            Some(inside) => {
                let (enumerators, end) = closed_enumerators(alloc, words, names, inside)?;
                let tree = make::named_enum(alloc, at, name, enumerators)?;
                Ok((tree, end))
            }
        },
    }
}
