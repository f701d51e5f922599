//! Declarators, with the lengths and parameters that stand in them.
ghost use Rattle.std.specs.Prelude.{◌≡◌, ◌++◌, OnOk};
ghost use Rattle.im_ctree.specs.Tree as t;
ghost use Rattle.im_ctree.specs.Shape.{declarator_of, core_of};
ghost use Rattle.im_check_texts.specs.im_rules.Strings.{strings_of_declarator, strings_of_core};
ghost use Rattle.im_check_texts.specs.im_rules.Strings.{strings_of_suffixes, strings_may};
ghost use Rattle.im_check_texts.specs.im_rules.Strings.{strings_of_parameters};
ghost use Rattle.im_ctree_parts.specs.Lists.{suffixes_from, with_suffix, declarator_from};
ghost use Rattle.im_ctree_parts.specs.Lists.{parameters_from, with_parameter};
ghost use Rattle.im_check_texts.specs.Texts.{texts_in};

use crate::expression::append_expression_if_any;
use crate::specifier::append_specifiers;
use im_ctree::{Core, Declarator, Parameter, Suffix, SuffixKind};
use im_num::NoMemory;
use std::alloc::Global;

/// Appends the string literals of a declarator (C11 6.7.6).
#[cycle(texts)]
pub fn append_declarator(
    alloc: Global,
    d: &Declarator,
    texts: &mut Vec<Vec<u8>>,
) -> Result<(), NoMemory>
    ensures { OnOk result (texts_in texts.new.items ≡ texts_in texts.old.items
        ++ strings_of_declarator (declarator_of d.now)) }
{
    append_core(alloc, &d.core, texts)?;
    append_suffixes(alloc, &d.suffixes, texts)
}

/// Appends those of what stands in the middle of a declarator.
#[cycle(texts)]
pub fn append_core(alloc: Global, core: &Core, texts: &mut Vec<Vec<u8>>) -> Result<(), NoMemory>
    ensures { OnOk result (texts_in texts.new.items ≡ texts_in texts.old.items
        ++ strings_of_core (core_of core.now)) }
{
    match core {
        Core::Absent | Core::Name(_) => Ok(()),
        Core::Inner(d) => append_declarator(alloc, d, texts),
    }
}

/// Appends those of suffixes in their order.
#[cycle(texts)]
pub fn append_suffixes(
    alloc: Global,
    suffixes: &[Suffix],
    texts: &mut Vec<Vec<u8>>,
) -> Result<(), NoMemory>
    ensures { OnOk result (texts_in texts.new.items ≡ texts_in texts.old.items
        ++ strings_of_suffixes (suffixes_from suffixes.now)) }
{
    for suffix in suffixes {
        append_suffix(alloc, suffix, texts)?;
    }
    Ok(())
}

#[cycle(texts)]
fn append_suffix(alloc: Global, suffix: &Suffix, texts: &mut Vec<Vec<u8>>) -> Result<(), NoMemory>
    ensures { OnOk result ((rest : t.Suffixes) → texts_in texts.new.items ++ strings_of_suffixes rest
        ≡ texts_in texts.old.items ++ strings_of_suffixes (with_suffix suffix.now.at suffix.now.kind rest)) }
{
    match &suffix.kind {
        SuffixKind::Array(count) => append_expression_if_any(alloc, count, texts),
        SuffixKind::Function(parameters) => append_parameters(alloc, parameters, texts),
    }
}

#[cycle(texts)]
pub fn append_declarator_if_any(
    alloc: Global,
    d: &Option<Box<Declarator>>,
    texts: &mut Vec<Vec<u8>>,
) -> Result<(), NoMemory>
    ensures { OnOk result (texts_in texts.new.items ≡ texts_in texts.old.items
        ++ strings_may (declarator_from d.now)) }
{
    match d {
        Some(declarator) => append_declarator(alloc, declarator, texts),
        None => Ok(()),
    }
}

/// Appends those of parameters in their order.
#[cycle(texts)]
pub fn append_parameters(
    alloc: Global,
    parameters: &[Parameter],
    texts: &mut Vec<Vec<u8>>,
) -> Result<(), NoMemory>
    ensures { OnOk result (texts_in texts.new.items ≡ texts_in texts.old.items
        ++ strings_of_parameters (parameters_from parameters.now)) }
{
    for parameter in parameters {
        append_parameter(alloc, parameter, texts)?;
    }
    Ok(())
}

#[cycle(texts)]
fn append_parameter(
    alloc: Global,
    parameter: &Parameter,
    texts: &mut Vec<Vec<u8>>,
) -> Result<(), NoMemory>
    ensures { OnOk result ((rest : t.Parameters) → texts_in texts.new.items ++ strings_of_parameters rest
        ≡ texts_in texts.old.items ++ strings_of_parameters (with_parameter parameter.now rest)) }
{
    append_specifiers(alloc, &parameter.specifiers, texts)?;
    append_declarator_if_any(alloc, &parameter.declarator, texts)
}
