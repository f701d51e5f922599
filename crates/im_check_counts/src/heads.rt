//! The functions that declarators at file scope declare.
ghost use Rattle.std.specs.Prelude.{◌≡◌, ◌++◌, ◌∷◌, [], if◌then◌else◌, IfOk, OnOk};
ghost use Rattle.im_ctree.specs.Tree as t;
ghost use Rattle.im_ctree.specs.Shape.{declarator_of, init_declarators_of, external_of};
ghost use Rattle.im_ctree.specs.Shape.{externals_of, tree_of};
ghost use Rattle.im_check_outline.specs.Walked.{nearest_of};
ghost use Rattle.im_rules_limits.specs.Limits as m;
ghost use Rattle.im_check_counts.specs.Heads.{head_of, heads_in};

use im_check_outline::{Neighbour, name_of, nearest};
use im_ctree::{Declarator, External, InitDeclarator, Name, Tree};
use im_num::NoMemory;
use std::alloc::Global;

/// A function where it is declared, with its parameters next to its name.
#[derive(Drop)]
pub struct Head {
    /// The number of its declarator's first token.
    pub at: u32,
    pub name: Name,
}

fn declared_head(alloc: Global, d: &Declarator) -> Result<Head, NoMemory>
    ensures { IfOk result (λ h. head_of h ≡ m.head_in (declarator_of d.now)) }
{
    let name = Vec::from_slice(alloc, name_of(d))?;
    Ok(Head { at: d.at, name })
}

fn remember(alloc: Global, d: &Declarator, found: &mut Vec<Head>) -> Result<(), NoMemory>
    ensures { OnOk result (heads_in found.new.items ≡ heads_in found.old.items
        ++ m.head_in (declarator_of d.now) ∷ []) }
{
    let one = declared_head(alloc, d)?;
    found.push(one)?;
    Ok(())
}

fn are_parameters(neighbour: Neighbour<'_>) -> bool
    ensures { (d : t.Declarator) → m.head_by (nearest_of neighbour.entry) d
        ≡ (if result then m.head_in d ∷ [] else []) }
{
    match neighbour {
        Neighbour::Parameters(_) => true,
        Neighbour::Bare | Neighbour::Star | Neighbour::Length => false,
    }
}

fn in_declarator(alloc: Global, d: &Declarator, found: &mut Vec<Head>) -> Result<(), NoMemory>
    ensures { OnOk result (heads_in found.new.items ≡ heads_in found.old.items
        ++ m.heads_of (declarator_of d.now)) }
{
    if !are_parameters(nearest(d)) {
        return Ok(());
    }
    remember(alloc, d, found)
}

fn in_declarators(
    alloc: Global,
    declarators: &[InitDeclarator],
    found: &mut Vec<Head>,
) -> Result<(), NoMemory>
    ensures { OnOk result (heads_in found.new.items ≡ heads_in found.old.items
        ++ m.heads_declared (init_declarators_of declarators.now)) }
{
    for d in declarators {
        in_declarator(alloc, &d.declarator, found)?;
    }
    Ok(())
}

fn in_external(alloc: Global, external: &External, found: &mut Vec<Head>) -> Result<(), NoMemory>
    ensures { OnOk result (heads_in found.new.items ≡ heads_in found.old.items
        ++ m.heads_external (external_of external.now)) }
{
    match external {
        External::Declaration(d) => in_declarators(alloc, &d.declarators, found),
        External::Function(f) => in_declarator(alloc, &f.declarator, found),
    }
}

fn in_externals(
    alloc: Global,
    externals: &[External],
    found: &mut Vec<Head>,
) -> Result<(), NoMemory>
    ensures { OnOk result (heads_in found.new.items ≡ heads_in found.old.items
        ++ m.function_heads (externals_of externals.now)) }
{
    for external in externals {
        in_external(alloc, external, found)?;
    }
    Ok(())
}

/// The functions that a unit's declarators at file scope declare, in their order.
pub fn function_heads(alloc: Global, tree: &Tree) -> Result<Vec<Head>, NoMemory>
    ensures { IfOk result (λ v. heads_in v.items ≡ m.function_heads (tree_of tree.now)) }
{
    let mut found = Vec::new(alloc);
    in_externals(alloc, &tree.externals, &mut found)?;
    Ok(found)
}
