//! The derivations that typedef names stand for (C11 6.2.5p20).
ghost use Rattle.std.specs.Prelude.{◌≡◌, ◌+◌, ◌∷◌, [], IfOk, OnOk, length, nat_lt};
ghost use Rattle.im_ctree.specs.Shape.{declarator_of, core_of, init_declarators_of, external_of};
ghost use Rattle.im_ctree.specs.Shape.{externals_of, tree_of};
ghost use Rattle.im_ctree_parts.specs.Lists.{list_from, stars_in, suffixes_from};
ghost use Rattle.im_check_outline.specs.im_rules.Outline.{typedef_in as typedef_name_in};
ghost use Rattle.im_check_counts.specs.Derivations.{derivations_by, own_derivations};
ghost use Rattle.im_check_counts.specs.Derivations.{inner_derivations, derived_from, derived_as};
ghost use Rattle.im_check_counts.specs.Derivations.{derived_in, derived_by, derived_of};
ghost use Rattle.im_check_counts.specs.Derivations.{with_derived as with_name, known_of, IsWalked};
ghost use Rattle.im_check_counts.specs.Derivations.{IsDeepIn};

use im_check_name_map::NameMap;
use im_check_outline::{is_typedef, name_of, typedef_in};
use im_ctree::{
    Core, Declaration, Declarator, External, InitDeclarator, Specifier, Star, Suffix, Tree,
};
use im_num::{NoMemory, beyond_memory};
use std::alloc::Global;

/// The most derivations that a typedef name may stand for.
const DERIVATION_LIMIT: usize = 250;

/// A typedef name, as it is declared.
#[derive(Clone, Copy)]
pub struct Deep<'a> {
    /// The derivations that it stands for.
    pub count: usize,
    /// The number of its declarator's first token.
    pub at: u32,
    pub name: &'a [u8],
}

fn sum(first: usize, second: usize) -> Result<usize, NoMemory>
    ensures { IfOk result (λ n. n ≡ first + second) }
{
    match first.checked_add(second) {
        Some(sum) => Ok(sum),
        None => Err(beyond_memory()),
    }
}

fn round_core(stars: &[Star], suffixes: &[Suffix]) -> Result<usize, NoMemory>
    ensures { IfOk result (λ n. n ≡ length (stars_in stars.now)
        + derivations_by (suffixes_from suffixes.now)) }
{
    sum(stars.len(), suffixes.len())
}

#[cycle(own)]
fn own(d: &Declarator) -> Result<usize, NoMemory>
    ensures { IfOk result (λ n. n ≡ own_derivations (declarator_of d.now)) }
{
    let within = inner(&d.core)?;
    let outside = round_core(&d.stars, &d.suffixes)?;
    sum(within, outside)
}

#[cycle(own)]
fn inner(core: &Core) -> Result<usize, NoMemory>
    ensures { IfOk result (λ n. n ≡ inner_derivations (core_of core.now)) }
{
    match core {
        Core::Absent | Core::Name(_) => Ok(0),
        Core::Inner(declarator) => own(declarator),
    }
}

/// What a declarator declares behind specifiers whose type has so many derivations.
fn derived(base: usize, d: &Declarator) -> Result<Deep<'_>, NoMemory>
    ensures { IfOk result (λ x. derived_as x ≡ derived_from base (declarator_of d.now)) }
{
    let more = own(d)?;
    let count = sum(base, more)?;
    Ok(Deep {
        count,
        at: d.at,
        name: name_of(d),
    })
}

fn remember(alloc: Global, known: &mut NameMap, x: Deep<'_>) -> Result<(), NoMemory>
    ensures { OnOk result (known_of known.new ≡ with_name (known_of known.old) (derived_as x.entry)) }
{
    let name = Vec::from_slice(alloc, x.name)?;
    known.set(name, Some(x.count))?;
    Ok(())
}

fn is_deep(count: usize) -> bool
    ensures { result ≡ nat_lt 250 count }
{
    count > DERIVATION_LIMIT
}

fn in_declarator<'a>(
    alloc: Global,
    base: usize,
    d: &'a Declarator,
    known: &mut NameMap,
) -> Result<Option<Deep<'a>>, NoMemory>
    ensures { IfOk result (IsWalked (known_of known.old)
        (derived_from base (declarator_of d.now) ∷ []) (known_of known.new)) }
{
    let x = derived(base, d)?;
    if is_deep(x.count) {
        return Ok(Some(x));
    }
    remember(alloc, known, x)?;
    Ok(None)
}

fn in_declarators<'a>(
    alloc: Global,
    base: usize,
    declarators: &'a [InitDeclarator],
    known: &mut NameMap,
) -> Result<Option<Deep<'a>>, NoMemory>
    ensures { IfOk result (IsWalked (known_of known.old)
        (derived_in base (init_declarators_of declarators.now)) (known_of known.new)) }
{
    for d in declarators {
        match in_declarator(alloc, base, &d.declarator, known)? {
            Some(x) => return Ok(Some(x)),
            None => {}
        }
    }
    Ok(None)
}

/// The derivations of the specifiers' type.
fn base_of(known: &NameMap, specifiers: &[Specifier]) -> usize
    ensures { result ≡ known_of known.now (typedef_name_in (list_from specifiers.now)) }
{
    match known.number(typedef_in(specifiers)) {
        Some(count) => count,
        None => 0,
    }
}

fn in_declaration<'a>(
    alloc: Global,
    d: &'a Declaration,
    known: &mut NameMap,
) -> Result<Option<Deep<'a>>, NoMemory>
    ensures { IfOk result (IsWalked (known_of known.old)
        (derived_by (known_of known.old) (external_of (External.Declaration d.now)))
        (known_of known.new)) }
{
    if !is_typedef(&d.specifiers.items) {
        return Ok(None);
    }
    let base = base_of(known, &d.specifiers.items);
    in_declarators(alloc, base, &d.declarators, known)
}

fn in_external<'a>(
    alloc: Global,
    external: &'a External,
    known: &mut NameMap,
) -> Result<Option<Deep<'a>>, NoMemory>
    ensures { IfOk result (IsWalked (known_of known.old)
        (derived_by (known_of known.old) (external_of external.now)) (known_of known.new)) }
{
    match external {
        External::Declaration(d) => in_declaration(alloc, d, known),
        External::Function(_) => Ok(None),
    }
}

fn in_externals<'a>(
    alloc: Global,
    externals: &'a [External],
    known: &mut NameMap,
) -> Result<Option<Deep<'a>>, NoMemory>
    ensures { IfOk result (IsWalked (known_of known.old)
        (derived_of (known_of known.old) (externals_of externals.now)) (known_of known.new)) }
{
    for external in externals {
        match in_external(alloc, external, known)? {
            Some(x) => return Ok(Some(x)),
            None => {}
        }
    }
    Ok(None)
}

/// The first typedef name that stands for more than 250 derivations, where there is one.
pub fn first_deep(alloc: Global, tree: &Tree) -> Result<Option<Deep<'_>>, NoMemory>
    ensures { IfOk result (IsDeepIn (tree_of tree.now)) }
{
    let mut known = NameMap::new(alloc);
    in_externals(alloc, &tree.externals, &mut known)
}
