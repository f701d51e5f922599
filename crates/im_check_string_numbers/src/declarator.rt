//! Declarators, with the lengths and parameters that stand in them.
ghost use Rattle.std.specs.Prelude.{◌≡◌, ◌+◌, length, IfOk};
ghost use Rattle.im_ctree.specs.Tree as t;
ghost use Rattle.im_ctree.specs.Shape.{declarator_of, core_of};
ghost use Rattle.im_rules.specs.Strings.{strings_of_declarator, strings_of_core};
ghost use Rattle.im_rules.specs.Strings.{strings_of_suffixes, strings_may, strings_of_parameters};
ghost use Rattle.im_ctree_parts.specs.Lists.{suffixes_from, with_suffix, declarator_from};
ghost use Rattle.im_ctree_parts.specs.Lists.{parameters_from, with_parameter};

use crate::expression::behind_expression_if_any;
use crate::specifier::behind_specifiers;
use im_ctree::{Core, Declarator, Parameter, Suffix, SuffixKind};
use im_num::NoMemory;

/// The number of the next string literal behind a declarator (C11 6.7.6).
#[cycle(strings)]
pub fn behind_declarator(next: u32, d: &Declarator) -> Result<u32, NoMemory>
    ensures { IfOk result (λ n. n ≡ next + length (strings_of_declarator (declarator_of d.now))) }
{
    let inner = behind_core(next, &d.core)?;
    behind_suffixes(inner, &d.suffixes)
}

/// The number behind what stands in the middle of a declarator.
#[cycle(strings)]
pub fn behind_core(next: u32, core: &Core) -> Result<u32, NoMemory>
    ensures { IfOk result (λ n. n ≡ next + length (strings_of_core (core_of core.now))) }
{
    match core {
        Core::Absent | Core::Name(_) => Ok(next),
        Core::Inner(d) => behind_declarator(next, d),
    }
}

/// The number behind suffixes in their order.
#[cycle(strings)]
pub fn behind_suffixes(next: u32, suffixes: &[Suffix]) -> Result<u32, NoMemory>
    ensures { IfOk result
        (λ n. n ≡ next + length (strings_of_suffixes (suffixes_from suffixes.now))) }
{
    let mut done = next;
    for suffix in suffixes {
        done = behind_suffix(done, suffix)?;
    }
    Ok(done)
}

#[cycle(strings)]
fn behind_suffix(next: u32, suffix: &Suffix) -> Result<u32, NoMemory>
    ensures { IfOk result (λ n. (rest : t.Suffixes) → n + length (strings_of_suffixes rest)
        ≡ next + length (strings_of_suffixes (with_suffix suffix.now.at suffix.now.kind rest))) }
{
    match &suffix.kind {
        SuffixKind::Array(count) => behind_expression_if_any(next, count),
        SuffixKind::Function(parameters) => behind_parameters(next, parameters),
    }
}

#[cycle(strings)]
pub fn behind_declarator_if_any(next: u32, d: &Option<Box<Declarator>>) -> Result<u32, NoMemory>
    ensures { IfOk result (λ n. n ≡ next + length (strings_may (declarator_from d.now))) }
{
    match d {
        Some(declarator) => behind_declarator(next, declarator),
        None => Ok(next),
    }
}

/// The number behind parameters in their order.
#[cycle(strings)]
pub fn behind_parameters(next: u32, parameters: &[Parameter]) -> Result<u32, NoMemory>
    ensures { IfOk result
        (λ n. n ≡ next + length (strings_of_parameters (parameters_from parameters.now))) }
{
    let mut done = next;
    for parameter in parameters {
        done = behind_parameter(done, parameter)?;
    }
    Ok(done)
}

#[cycle(strings)]
fn behind_parameter(next: u32, parameter: &Parameter) -> Result<u32, NoMemory>
    ensures { IfOk result (λ n. (rest : t.Parameters) → n + length (strings_of_parameters rest)
        ≡ next + length (strings_of_parameters (with_parameter parameter.now rest))) }
{
    let inner = behind_specifiers(next, &parameter.specifiers)?;
    behind_declarator_if_any(inner, &parameter.declarator)
}
