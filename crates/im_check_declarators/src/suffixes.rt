//! Suffixes (C11 6.7.6.2, 6.7.6.3).
ghost use Rattle.std.specs.Prelude.{◌≡◌, ◌≤◌, ◌∷◌, List, length, Bool, IfOk, pos, IfErr};
ghost use Rattle.im_ctree.specs.Tree as t;
ghost use Rattle.im_ctype.specs.Table.{structs_of};
ghost use Rattle.im_rules.specs.Context.{Context};
ghost use Rattle.im_rules.specs.Declared as d;
ghost use Rattle.im_rules.specs.Rules.{rule_6_length};
ghost use Rattle.im_rules.specs.Terms.{size_in};
ghost use Rattle.im_check_sizes.specs.im_rules_limits.Limits.{size_limit};
ghost use Rattle.im_check_stop.specs.declared.stop.Stop.TheVariants.{Memory};
ghost use Rattle.im_ctree_parts.specs.Lists.{maybe_from, parameters_from, suffixes_from};
ghost use Rattle.im_ctree_parts.specs.Lists.{with_suffix};
ghost use Rattle.im_types.specs.Shape.{type_of};
ghost use Rattle.im_check_type_specifiers.specs.Specified.{IsQualified, qualified_of};
ghost use Rattle.im_check_declarators.specs.declared.given.Given.{Given};
ghost use Rattle.im_check_declarators.specs.Suffixes.{AreGiven, AreSuffixed, SuffixesDone};
ghost use Rattle.im_check_declarators.specs.Suffixes.{IsElement, IsCount, IsArray, IsGivenLength};
ghost use Rattle.im_check_declarators.specs.Suffixes.{IsGivenOf, IsLength, IsParameters};

use crate::functions::function;
use crate::given::Given;
use crate::stars::may_be_part;
use im_check_sizes::fits;
use im_check_stop::{Stop, refused};
use im_check_type_specifiers::Qualified;
use im_ctree::{Expression, Parameter, Suffix, SuffixKind};
use im_ctype::TypeTable;
use im_num::{NoMemory, beyond_memory};
use im_types::{Type, array_of, is_complete, unsized_of};
use std::alloc::Global;

/// Whether a type may be an array's element, where so many structs have their member lists.
fn element(known: usize, at: u32, ty: &Type) -> Result<(), Stop>
    ensures asked { (c : Context) (constant : Bool) → length c.known ≡ known
        → IsElement c (record { constant = constant; type = type_of ty.now }) at result }
    ensures spared { IfErr result (λ stop. stop ≡ Memory → ⊥) }
{
    if !may_be_part(ty) {
        return Err(refused(10, at));
    }
    if !is_complete(known, ty) {
        return Err(refused(5, at));
    }
    Ok(())
}

fn is_count(value: i128) -> bool
    ensures { result ≡ rule_6_length (Some value) }
{
    value > 0
}

/// Want of memory where a type's bytes are over the limit.
fn is_within(table: &TypeTable, ty: &Type) -> Result<(), NoMemory>
    ensures { IfOk result (λ u. size_in (structs_of table.now) (type_of ty.now) ≤ size_limit) }
{
    match fits(table, ty) {
        Ok(_) => Ok(()),
        Err(_) => Err(beyond_memory()),
    }
}

/// What is asked of an array's length and its elements; gives the length.
fn counted(table: &TypeTable, at: u32, value: Option<i128>, ty: &Type) -> Result<u64, Stop>
    ensures { (c : Context) (constant : Bool) → c.known ≡ structs_of table.now
        → IsCount c (record { constant = constant; type = type_of ty.now }) value at result }
{
    let Some(count) = value else {
        return Err(refused(15, at));
    };
    if !is_count(count) {
        return Err(Stop::Rule {
            number: 6,
            token: at,
        });
    }
    element(table.struct_count(), at, ty)?;
    match long(count) {
        Ok(number) => Ok(number),
        Err(fault) => Err(Stop::from(fault)),
    }
}

/// A number of 64 bits. Want of memory where it has more.
fn long(count: i128) -> Result<u64, NoMemory>
    ensures { IfOk result (λ n. pos n ≡ count) }
{
    match u64::try_from(count) {
        Ok(number) => Ok(number),
        Err(_) => Err(beyond_memory()),
    }
}

/// An array of these elements, by the value of its length as a constant expression, if it is one;
/// `at` is the first token of its suffix. Elements over the limit of sizes are answered by want of
/// memory.
pub fn array(
    alloc: Global,
    table: &TypeTable,
    at: u32,
    value: Option<i128>,
    q: Qualified,
) -> Result<Qualified, Stop>
    ensures { (c : Context) → c.known ≡ structs_of table.now
        → IsArray c (qualified_of q) value at result }
{
    let count = counted(table, at, value, &q.ty)?;
    is_within(table, &q.ty)?;
    let ty = array_of(alloc, q.ty, count)?;
    fits(table, &ty)?;
    Ok(Qualified {
        constant: q.constant,
        ty,
    })
}

/// An array of these elements whose length isn't written.
pub fn open_array(alloc: Global, known: usize, at: u32, q: Qualified) -> Result<Qualified, Stop>
    ensures { (c : Context) → length c.known ≡ known
        → IsQualified (d.element_asks c (qualified_of q)) (d.open_array_of (qualified_of q)) at
        result }
{
    element(known, at, &q.ty)?;
    let ty = unsized_of(alloc, q.ty)?;
    Ok(Qualified {
        constant: q.constant,
        ty,
    })
}

fn length_suffix(
    alloc: Global,
    table: &TypeTable,
    at: u32,
    given: &Given,
    q: Qualified,
) -> Result<Qualified, Stop>
    requires { IsLength given.now }
    ensures { (c : Context) (base : d.Qualified) (e : t.Expression) (rest : t.Suffixes)
        (others : List Given) → c.known ≡ structs_of table.now
        → AreGiven c (t.array_suffix at (t.an_expression e) rest) (given.now ∷ others)
        → AreSuffixed (structs_of table.now) base rest others (qualified_of q)
        → SuffixesDone c base (t.array_suffix at (t.an_expression e) rest) result }
{
    match given {
        Given::Length(value) => array(alloc, table, at, *value, q),
        Given::Open | Given::Parameters(_) => unreachable!(),
    }
}

fn open_suffix(
    alloc: Global,
    table: &TypeTable,
    at: u32,
    given: &Given,
    q: Qualified,
) -> Result<Qualified, Stop>
    requires { given.now ≡ Given.Open }
    ensures { (c : Context) (base : d.Qualified) (rest : t.Suffixes) (others : List Given)
        → c.known ≡ structs_of table.now
        → AreGiven c (t.array_suffix at t.no_expression rest) (given.now ∷ others)
        → AreSuffixed (structs_of table.now) base rest others (qualified_of q)
        → SuffixesDone c base (t.array_suffix at t.no_expression rest) result }
{
    match given {
        Given::Open => open_array(alloc, table.struct_count(), at, q),
        Given::Length(_) | Given::Parameters(_) => unreachable!(),
    }
}

fn array_suffix(
    alloc: Global,
    table: &TypeTable,
    at: u32,
    written: &Option<Box<Expression>>,
    given: &Given,
    q: Qualified,
) -> Result<Qualified, Stop>
    requires { IsGivenLength written.now given.now }
    ensures { (c : Context) (base : d.Qualified) (rest : t.Suffixes) (others : List Given)
        → c.known ≡ structs_of table.now
        → AreGiven c (t.array_suffix at (maybe_from written.now) rest) (given.now ∷ others)
        → AreSuffixed (structs_of table.now) base rest others (qualified_of q)
        → SuffixesDone c base (t.array_suffix at (maybe_from written.now) rest) result }
{
    match written {
        None => open_suffix(alloc, table, at, given, q),
        Some(_) => length_suffix(alloc, table, at, given, q),
    }
}

fn function_suffix(
    alloc: Global,
    table: &TypeTable,
    at: u32,
    parameters: &[Parameter],
    given: &Given,
    q: Qualified,
) -> Result<Qualified, Stop>
    requires { IsParameters given.now }
    ensures { (c : Context) (base : d.Qualified) (rest : t.Suffixes) (others : List Given)
        → c.known ≡ structs_of table.now
        → AreGiven c (t.function_suffix at (parameters_from parameters.now) rest)
        (given.now ∷ others)
        → AreSuffixed (structs_of table.now) base rest others (qualified_of q)
        → SuffixesDone c base (t.function_suffix at (parameters_from parameters.now) rest) result }
{
    match given {
        Given::Parameters(declared) => function(alloc, at, parameters, declared, q),
        Given::Length(_) | Given::Open => unreachable!(),
    }
}

fn one_suffix(
    alloc: Global,
    table: &TypeTable,
    suffix: &Suffix,
    given: &Given,
    q: Qualified,
) -> Result<Qualified, Stop>
    requires { IsGivenOf suffix.now.kind given.now }
    ensures { (c : Context) (base : d.Qualified) (rest : t.Suffixes) (others : List Given)
        → c.known ≡ structs_of table.now
        → AreGiven c (with_suffix suffix.now.at suffix.now.kind rest) (given.now ∷ others)
        → AreSuffixed (structs_of table.now) base rest others (qualified_of q)
        → SuffixesDone c base (with_suffix suffix.now.at suffix.now.kind rest) result }
{
    match &suffix.kind {
        SuffixKind::Array(written) => array_suffix(alloc, table, suffix.at, written, given, q),
        SuffixKind::Function(parameters) => {
            function_suffix(alloc, table, suffix.at, parameters, given, q)
        }
    }
}

/// The type that suffixes make of another one, the last of them nearest to it. What stands in each
/// is given; the table has the structs whose member lists have ended.
pub fn suffixed(
    alloc: Global,
    table: &TypeTable,
    suffixes: &[Suffix],
    given: &[Given],
    q: Qualified,
) -> Result<Qualified, Stop>
    requires { (c : Context) × AreGiven c (suffixes_from suffixes.now) given.now }
    ensures { (c : Context) → c.known ≡ structs_of table.now
        → AreGiven c (suffixes_from suffixes.now) given.now
        → SuffixesDone c (qualified_of q) (suffixes_from suffixes.now) result }
{
    let mut behind = q;
    let mut i = suffixes.len();
    while i > 0 {
        i -= 1;
        behind = one_suffix(alloc, table, &suffixes[i], &given[i], behind)?;
    }
    Ok(behind)
}
