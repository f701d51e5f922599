ghost use Rattle.std.specs.Prelude.{◌≡◌, ◌<◌, ◌^◌, ◌↔◌, Some, IsTrue, true, MatchOption, length};
ghost use Rattle.std.specs.Prelude.{map, drop};
ghost use Rattle.im_word.specs.Words.{Name, name};
ghost use Rattle.im_parse_core.specs.Reads.{head};
ghost use Rattle.im_parse_core.specs.Places.{IsAt};
ghost use Rattle.im_parse_expression.specs.Declaring.{HasName, MayBeNameless, BeginsSuffix};
ghost use Rattle.im_word.specs.Shown.{shown};
ghost use Rattle.im_parse_expression.specs.Cores.{IsCoreAt, IsInnerAt};

use super::ahead::{has_mark, may_be_nameless, may_have_name, opens_parameters, suffix_ahead};
use super::form::Form;
use im_parse_core::{Stop, TypedefNames, after_mark, name_at};
use im_tok::Punctuator;
use im_word::Word;

/// How what stands behind the stars of a declarator begins.
#[derive(Clone, Copy)]
pub enum CoreStart<'b> {
    /// With the declared name, and the place behind it.
    Name(&'b [u8], u32),
    /// With the parenthesis before a declarator of this form, and the place behind it.
    Inner(Form, u32),
    /// With no core.
    Nothing,
}

/// What a parenthesis before this place begins in a declarator of this form.
fn inner_at(
    words: &[Word],
    names: &TypedefNames,
    form: Form,
    behind: u32,
) -> Result<Option<Form>, Stop>
    requires { length words.now < 2 ^ 32 }
    ensures { IsInnerAt names.now form (map shown words.now) behind result }
{
    let starred = has_mark(words, behind, Punctuator::Star);
    let opened = opens_parameters(words, names, behind);
    match form {
        Form::Declared => Ok(Some(Form::Declared)),
        Form::Guarded if opened => Err(Stop::Syntax(behind)),
        Form::Guarded => Ok(Some(Form::Guarded)),
        Form::Either if opened => Ok(None),
        Form::Either if starred => Ok(Some(Form::Either)),
        Form::Either => Ok(Some(Form::Guarded)),
        Form::Abstract if starred => Ok(Some(Form::Abstract)),
        Form::Abstract => Ok(None),
    }
}

/// The name at this place, where a declarator of this form may have one there.
fn own_name<'b>(words: &[Word<'b>], form: Form, at: u32) -> Option<(&'b [u8], u32)>
    requires { length words.now < 2 ^ 32 }
    ensures { MatchOption result
        (HasName form → (n : Name) → head (drop at (map shown words.now)) ≡ Some (name n) → ⊥)
        (λ found. HasName form × IsAt (name found.0.now) (map shown words.now) at found.1) }
{
    if !may_have_name(form) {
        return None;
    }
    name_at(words, at)
}

/// Whether a declarator of this form may go on without a core at this place, where `unstarred` says
/// that it has no stars.
fn is_nameless(words: &[Word], form: Form, unstarred: bool, at: u32) -> bool
    requires { length words.now < 2 ^ 32 }
    ensures { IsTrue result ↔ MayBeNameless form ×
        (unstarred ≡ true → BeginsSuffix (head (drop at (map shown words.now)))) }
{
    if !may_be_nameless(form) {
        return false;
    }
    if !unstarred {
        return true;
    }
    suffix_ahead(words, at)
}

/// How a declarator of this form goes on behind its stars, where `unstarred` says that it has none.
pub fn core_at<'b>(
    words: &[Word<'b>],
    names: &TypedefNames,
    form: Form,
    unstarred: bool,
    at: u32,
) -> Result<CoreStart<'b>, Stop>
    requires { length words.now < 2 ^ 32 }
    ensures { IsCoreAt names.now form unstarred (map shown words.now) at result }
{
    if let Some(behind) = after_mark(words, at, Punctuator::OpenParen) {
        let inner = inner_at(words, names, form, behind)?;
        return match inner {
            Some(inner) => Ok(CoreStart::Inner(inner, behind)),
            None => Ok(CoreStart::Nothing),
        };
    }
    if let Some((name, behind)) = own_name(words, form, at) {
        return Ok(CoreStart::Name(name, behind));
    }
    if is_nameless(words, form, unstarred, at) {
        Ok(CoreStart::Nothing)
    } else {
        Err(Stop::Syntax(at))
    }
}
