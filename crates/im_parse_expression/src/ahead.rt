ghost use Rattle.std.specs.Prelude.{◌≡◌, ◌<◌, ◌^◌, ◌↔◌, Some, IsTrue, length, map, drop};
ghost use Rattle.im_word.specs.Shown.{shown};
ghost use Rattle.im_word.specs.Words.{mark};
ghost use Rattle.im_ctree.specs.Grammar.{OpensParameters};
ghost use Rattle.im_ctree.specs.Typedefs as typedefs;
ghost use Rattle.im_parse_core.specs.Reads.{head};
ghost use Rattle.im_parse_expression.specs.Declaring.{GoesOn, BeginsForm, BeginsSuffix, HasName};
ghost use Rattle.im_parse_expression.specs.Declaring.{MayBeNameless, IsNamed, specifier_tree};

use super::form::Form;
use super::look::begins_specifiers;
use im_ctree::{Specifier, SpecifierKind, SpecifierWord};
use im_parse_core::{TypedefNames, after_mark, name_at};
use im_tok::Punctuator;
use im_word::Word;

/// Whether this punctuator stands at this place.
pub fn has_mark(words: &[Word], at: u32, punctuator: Punctuator) -> bool
    requires { length words.now < 2 ^ 32 }
    ensures { IsTrue result ↔ head (drop at (map shown words.now)) ≡ Some (mark punctuator) }
{
    match after_mark(words, at, punctuator) {
        Some(_) => true,
        None => false,
    }
}

/// Whether a name stands at this place.
fn has_name(words: &[Word], at: u32) -> bool
    requires { length words.now < 2 ^ 32 }
    ensures { IsTrue result ↔ IsNamed (head (drop at (map shown words.now))) }
{
    match name_at(words, at) {
        Some(_) => true,
        None => false,
    }
}

/// Whether specifiers go on at this place, where `typed` says whether a type stands in those before
/// it.
pub fn specifier_ahead(words: &[Word], names: &TypedefNames, typed: bool, at: u32) -> bool
    requires { length words.now < 2 ^ 32 }
    ensures { IsTrue result ↔ GoesOn names.now typed (head (drop at (map shown words.now))) }
{
    if !typed {
        return begins_specifiers(words, names, at);
    }
    if has_name(words, at) {
        return false;
    }
    begins_specifiers(words, names, at)
}

fn is_type_word(word: SpecifierWord) -> bool
    ensures { result ≡ typedefs.is_type_word word }
{
    !matches!(
        word,
        SpecifierWord::Typedef
            | SpecifierWord::Extern
            | SpecifierWord::Static
            | SpecifierWord::Const
    )
}

/// Whether a type stands in specifiers up to this one, where `before` says so of those before it.
pub fn adds_type(before: bool, item: &Specifier) -> bool
    ensures { result ≡ typedefs.adds_type before (specifier_tree item.now) }
{
    match item.kind {
        SpecifierKind::Word(word) => before || is_type_word(word),
        _ => true,
    }
}

/// Whether a parameter list opens here, behind a parenthesis in a parameter's declarator (C11
/// 6.7.6.3p11).
pub fn opens_parameters(words: &[Word], names: &TypedefNames, at: u32) -> bool
    requires { length words.now < 2 ^ 32 }
    ensures { IsTrue result ↔ OpensParameters names.now (drop at (map shown words.now)) }
{
    if has_mark(words, at, Punctuator::CloseParen) {
        return true;
    }
    begins_specifiers(words, names, at)
}

/// Whether an array's or a function's bracket stands at this place.
pub fn suffix_ahead(words: &[Word], at: u32) -> bool
    requires { length words.now < 2 ^ 32 }
    ensures { IsTrue result ↔ BeginsSuffix (head (drop at (map shown words.now))) }
{
    if has_mark(words, at, Punctuator::OpenBracket) {
        return true;
    }
    has_mark(words, at, Punctuator::OpenParen)
}

/// Whether a declarator of this form may declare a name outside of parentheses.
pub fn may_have_name(form: Form) -> bool
    ensures { IsTrue result ↔ HasName form }
{
    match form {
        Form::Declared => true,
        Form::Guarded => true,
        Form::Either => true,
        Form::Abstract => false,
    }
}

/// Whether a declarator of this form may have no name.
pub fn may_be_nameless(form: Form) -> bool
    ensures { IsTrue result ↔ MayBeNameless form }
{
    match form {
        Form::Declared => false,
        Form::Guarded => false,
        Form::Either => true,
        Form::Abstract => true,
    }
}

/// Whether a declarator of this form begins at this place.
pub fn declarator_ahead(words: &[Word], form: Form, at: u32) -> bool
    requires { length words.now < 2 ^ 32 }
    ensures { IsTrue result ↔ BeginsForm form (head (drop at (map shown words.now))) }
{
    if suffix_ahead(words, at) {
        return true;
    }
    if has_mark(words, at, Punctuator::Star) {
        return true;
    }
    if !may_have_name(form) {
        return false;
    }
    has_name(words, at)
}
