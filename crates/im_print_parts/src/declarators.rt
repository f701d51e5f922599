ghost use Rattle.std.specs.Prelude.{◌≡◌, false, [], ◌∷◌, ◌++◌, OnOk};
ghost use Rattle.im_tok.specs.declared.punctuator.Punctuator.TheVariants as punctuator;
ghost use Rattle.im_word.specs.Words.{mark};
ghost use Rattle.im_ctree.specs.Shape.{core_of, declarator_of, type_name_of};
ghost use Rattle.im_print_relation.specs.Printed as printed;
ghost use Rattle.im_print_parts.specs.Output.{Writes, each, known};
ghost use Rattle.im_print_parts.specs.Parts as parts;
ghost use Rattle.im_ctree_parts.specs.Lists.{declarator_from, declarators_from, maybe_from};
ghost use Rattle.im_ctree_parts.specs.Lists.{parameters_from, stars_in, suffixes_from};

use crate::commas::put_comma_if;
use crate::expressions::put_at;
use crate::specifiers::put_specifiers;
use crate::{put_keyword, put_mark, put_name};
use im_ctree::{Core, Declarator, Expression, Parameter, Star, Suffix, SuffixKind, TypeName};
use im_num::NoMemory;
use im_tok::{Keyword, Punctuator};

/// Writes a `*` and the `const` behind it (C11 6.7.6.1).
fn put_star(out: &mut Vec<u8>, star: Star) -> Result<(), NoMemory>
    ensures { OnOk result (Writes out.old.items out.new.items (parts.star_words star)) }
{
    put_mark(out, Punctuator::Star)?;
    let mut left = star.consts;
    while left > 0 {
        put_keyword(out, Keyword::Const)?;
        left -= 1;
    }
    Ok(())
}

/// Writes the stars of a declarator (C11 6.7.6.1).
fn put_stars(out: &mut Vec<u8>, stars: &[Star]) -> Result<(), NoMemory>
    ensures { OnOk result (Writes out.old.items out.new.items (each parts.star_words stars.now)) }
{
    for star in stars {
        put_star(out, *star)?;
    }
    Ok(())
}

/// Writes a declarator (C11 6.7.6), or an abstract one (C11 6.7.7).
#[cycle(printing)]
pub fn put_declarator(
    out: &mut Vec<u8>,
    names: &[&[u8]],
    declarator: &Declarator,
) -> Result<(), NoMemory>
    ensures { OnOk result (Writes out.old.items out.new.items
        (parts.declarator_words (known names.now) declarator.now)) }
{
    put_stars(out, &declarator.stars)?;
    put_core(out, names, &declarator.core)?;
    put_suffixes(out, names, &declarator.suffixes)?;
    Ok(())
}

/// Writes what the stars and suffixes of a declarator stand round.
#[cycle(printing)]
fn put_core(out: &mut Vec<u8>, names: &[&[u8]], core: &Core) -> Result<(), NoMemory>
    ensures { OnOk result (Writes out.old.items out.new.items
        (printed.core (known names.now) (core_of core.now))) }
{
    match core {
        Core::Absent => Ok(()),
        Core::Name(name) => put_name(out, name),
        Core::Inner(inner) => put_in_parentheses(out, names, inner),
    }
}

/// Writes a declarator in parentheses.
#[cycle(printing)]
pub fn put_in_parentheses(
    out: &mut Vec<u8>,
    names: &[&[u8]],
    declarator: &Declarator,
) -> Result<(), NoMemory>
    ensures { OnOk result (Writes out.old.items out.new.items (printed.in_parentheses
        (parts.declarator_words (known names.now) declarator.now))) }
{
    put_mark(out, Punctuator::OpenParen)?;
    put_declarator(out, names, declarator)?;
    put_mark(out, Punctuator::CloseParen)?;
    Ok(())
}

/// Writes the array and function parts behind a declarator's core.
#[cycle(printing)]
fn put_suffixes(out: &mut Vec<u8>, names: &[&[u8]], suffixes: &[Suffix]) -> Result<(), NoMemory>
    ensures { OnOk result (Writes out.old.items out.new.items
        (each (parts.suffix_words (known names.now)) suffixes.now)) }
{
    for suffix in suffixes {
        put_suffix(out, names, suffix)?;
    }
    Ok(())
}

#[cycle(printing)]
fn put_suffix(out: &mut Vec<u8>, names: &[&[u8]], suffix: &Suffix) -> Result<(), NoMemory>
    ensures { OnOk result (Writes out.old.items out.new.items
        (parts.suffix_words (known names.now) suffix.now)) }
{
    match &suffix.kind {
        SuffixKind::Array(length) => put_array(out, names, length),
        SuffixKind::Function(parameters) => put_function(out, names, parameters),
    }
}

/// Writes an array's length in brackets (C11 6.7.6.2).
#[cycle(printing)]
fn put_array(
    out: &mut Vec<u8>,
    names: &[&[u8]],
    length: &Option<Box<Expression>>,
) -> Result<(), NoMemory>
    ensures { OnOk result (Writes out.old.items out.new.items (mark punctuator.OpenBracket
        ∷ (printed.array_length (known names.now) (maybe_from length.now)
        ++ (mark punctuator.CloseBracket ∷ [])))) }
{
    put_mark(out, Punctuator::OpenBracket)?;
    put_length(out, names, length)?;
    put_mark(out, Punctuator::CloseBracket)?;
    Ok(())
}

#[cycle(printing)]
fn put_length(
    out: &mut Vec<u8>,
    names: &[&[u8]],
    length: &Option<Box<Expression>>,
) -> Result<(), NoMemory>
    ensures { OnOk result (Writes out.old.items out.new.items (printed.array_length
        (known names.now) (maybe_from length.now))) }
{
    match length {
        None => Ok(()),
        Some(expression) => put_at(out, names, 2, expression),
    }
}

/// Writes a function's parameters in parentheses (C11 6.7.6.3).
#[cycle(printing)]
fn put_function(
    out: &mut Vec<u8>,
    names: &[&[u8]],
    parameters: &[Parameter],
) -> Result<(), NoMemory>
    ensures { OnOk result (Writes out.old.items out.new.items (mark punctuator.OpenParen
        ∷ (printed.parameters (known names.now) (parameters_from parameters.now)
        ++ (mark punctuator.CloseParen ∷ [])))) }
{
    put_mark(out, Punctuator::OpenParen)?;
    put_parameters(out, names, parameters)?;
    put_mark(out, Punctuator::CloseParen)?;
    Ok(())
}

/// Writes parameters with commas between them.
#[cycle(printing)]
fn put_parameters(
    out: &mut Vec<u8>,
    names: &[&[u8]],
    parameters: &[Parameter],
) -> Result<(), NoMemory>
    ensures { OnOk result (Writes out.old.items out.new.items
        (parts.separated (parts.parameter_words (known names.now)) false parameters.now)) }
{
    let mut behind = false;
    for parameter in parameters {
        put_comma_if(out, behind)?;
        put_parameter(out, names, parameter)?;
        behind = true;
    }
    Ok(())
}

/// Writes a parameter (C11 6.7.6).
#[cycle(printing)]
fn put_parameter(out: &mut Vec<u8>, names: &[&[u8]], parameter: &Parameter) -> Result<(), NoMemory>
    ensures { OnOk result (Writes out.old.items out.new.items
        (parts.parameter_words (known names.now) parameter.now)) }
{
    put_specifiers(out, names, &parameter.specifiers.items)?;
    put_maybe_declarator(out, names, &parameter.declarator)?;
    Ok(())
}

#[cycle(printing)]
fn put_maybe_declarator(
    out: &mut Vec<u8>,
    names: &[&[u8]],
    declarator: &Option<Box<Declarator>>,
) -> Result<(), NoMemory>
    ensures { OnOk result (Writes out.old.items out.new.items (printed.maybe_declarator
        (known names.now) (declarator_from declarator.now))) }
{
    match declarator {
        None => Ok(()),
        Some(one) => put_declarator(out, names, one),
    }
}

/// Writes a type name (C11 6.7.7).
#[cycle(printing)]
pub fn put_type_name(out: &mut Vec<u8>, names: &[&[u8]], name: &TypeName) -> Result<(), NoMemory>
    ensures { OnOk result (Writes out.old.items out.new.items (printed.type_name
        (known names.now) (type_name_of name.now))) }
{
    put_specifiers(out, names, &name.specifiers.items)?;
    put_maybe_declarator(out, names, &name.declarator)?;
    Ok(())
}
