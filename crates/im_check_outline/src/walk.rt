//! The declarators of a unit, in order.
ghost use Rattle.std.specs.Prelude.{◌≡◌, ◌&&◌, IfOk};
ghost use Rattle.im_ctree.specs.Tree as t;
ghost use Rattle.im_ctree.specs.Shape.{declarator_of, init_declarators_of, external_of};
ghost use Rattle.im_ctree.specs.Shape.{tree_of as unit_of};
ghost use Rattle.im_check_name_map.specs.im_rules.Outline as o;
ghost use Rattle.im_ctree_parts.specs.Lists.{list_from};
ghost use Rattle.im_check_outline.specs.Walked.{sort_of, outlined_of, walk_of, behind_one};
ghost use Rattle.im_check_outline.specs.Walked.{with_outlined, with_function as with_function_name};

use crate::declarator::{gives_function, name_of, nearest};
use crate::item::{Item, Sort, Walk};
use crate::lists::with_lists;
use crate::specifier::{is_extern, is_typedef, typedef_in};
use im_check_name_map::{NameList, TagList};
use im_ctree::{Declaration, Declarator, External, Function, InitDeclarator, Specifier, Tree};
use im_num::NoMemory;
use std::alloc::Global;

fn sort_by(typedef: bool, function: bool) -> Sort
    ensures { sort_of result ≡ o.sort_of typedef function }
{
    if typedef {
        Sort::Type
    } else if function {
        Sort::Function
    } else {
        Sort::Object
    }
}

fn item(
    alloc: Global,
    name: &[u8],
    sort: Sort,
    is_extern: bool,
    is_whole: bool,
) -> Result<Item, NoMemory>
    ensures { IfOk result (λ i. outlined_of i
        ≡ record {
          name = name.now;
          sort = sort_of sort;
          is_extern = is_extern;
          is_whole =
              is_whole;
        }) }
{
    let kept = Vec::from_slice(alloc, name)?;
    Ok(Item {
        name: kept,
        sort,
        is_extern,
        is_whole,
    })
}

fn with_item(walk: Walk, item: Item) -> Result<Walk, NoMemory>
    ensures { IfOk result (λ new. walk_of new ≡ with_outlined (outlined_of item) (walk_of walk)) }
{
    let mut done = walk;
    done.items.push(item)?;
    Ok(done)
}

/// Remembers a typedef name of a function type.
fn with_function_type(
    alloc: Global,
    is_one: bool,
    name: &[u8],
    walk: Walk,
) -> Result<Walk, NoMemory>
    ensures { IfOk result (λ new. walk_of new ≡ with_function_name is_one name.now (walk_of walk)) }
{
    if !is_one {
        return Ok(walk);
    }
    let mut done = walk;
    done.functions.push(alloc, name)?;
    Ok(done)
}

fn both(first: bool, second: bool) -> bool
    ensures { result ≡ (first && second) }
{
    first && second
}

fn with_declarator(
    alloc: Global,
    specifiers: &[Specifier],
    d: &Declarator,
    is_whole: bool,
    walk: Walk,
) -> Result<Walk, NoMemory>
    ensures { IfOk result (λ new. walk_of new
        ≡ o.with_declarator (list_from specifiers.now) (declarator_of d.now) is_whole
        (walk_of walk)) }
{
    let of_function = walk.functions.contains(typedef_in(specifiers));
    let function = gives_function(nearest(d), of_function);
    let typedef = is_typedef(specifiers);
    let name = name_of(d);
    let one = item(
        alloc,
        name,
        sort_by(typedef, function),
        is_extern(specifiers),
        is_whole,
    )?;
    let behind = with_function_type(alloc, both(typedef, function), name, walk)?;
    with_item(behind, one)
}

fn with_one(
    alloc: Global,
    specifiers: &[Specifier],
    d: &InitDeclarator,
    walk: Walk,
) -> Result<Walk, NoMemory>
    ensures { IfOk result (λ new. walk_of new
        ≡ behind_one (list_from specifiers.now) d.now (walk_of walk)) }
{
    let is_whole = d.initializer.is_some();
    with_declarator(alloc, specifiers, &d.declarator, is_whole, walk)
}

fn with_declarators(
    alloc: Global,
    specifiers: &[Specifier],
    declarators: &[InitDeclarator],
    walk: Walk,
) -> Result<Walk, NoMemory>
    ensures { IfOk result (λ new. walk_of new
        ≡ o.with_declarators (list_from specifiers.now) (init_declarators_of declarators.now)
        (walk_of walk)) }
{
    let mut done = walk;
    for d in declarators {
        done = with_one(alloc, specifiers, d, done)?;
    }
    Ok(done)
}

fn with_member_lists(alloc: Global, specifiers: &[Specifier], walk: Walk) -> Result<Walk, NoMemory>
    ensures { IfOk result (λ new. walk_of new ≡ o.with_lists (list_from specifiers.now) (walk_of walk)) }
{
    let Walk {
        functions,
        items,
        lists,
    } = walk;
    let all = with_lists(alloc, specifiers, lists)?;
    Ok(Walk {
        functions,
        items,
        lists: all,
    })
}

fn with_declaration(alloc: Global, d: &Declaration, walk: Walk) -> Result<Walk, NoMemory>
    ensures { IfOk result (λ new. walk_of new
        ≡ o.with_external (external_of (External.Declaration d.now)) (walk_of walk)) }
{
    let behind = with_member_lists(alloc, &d.specifiers.items, walk)?;
    with_declarators(alloc, &d.specifiers.items, &d.declarators, behind)
}

fn with_function(alloc: Global, f: &Function, walk: Walk) -> Result<Walk, NoMemory>
    ensures { IfOk result (λ new. walk_of new
        ≡ o.with_external (external_of (External.Function f.now)) (walk_of walk)) }
{
    let behind = with_member_lists(alloc, &f.specifiers.items, walk)?;
    let one = item(alloc, name_of(&f.declarator), Sort::Function, false, true)?;
    with_item(behind, one)
}

fn with_external(alloc: Global, external: &External, walk: Walk) -> Result<Walk, NoMemory>
    ensures { IfOk result (λ new. walk_of new ≡ o.with_external (external_of external.now) (walk_of walk)) }
{
    match external {
        External::Declaration(d) => with_declaration(alloc, d, walk),
        External::Function(f) => with_function(alloc, f, walk),
    }
}

/// The declarators and the member lists of a unit.
pub(crate) fn walked(alloc: Global, tree: &Tree) -> Result<Walk, NoMemory>
    ensures { IfOk result (λ new. walk_of new ≡ o.whole_walk (unit_of tree.now)) }
{
    let mut done = Walk {
        functions: NameList::new(alloc),
        items: Vec::new(alloc),
        lists: TagList::new(alloc),
    };
    for external in &tree.externals {
        done = with_external(alloc, external, done)?;
    }
    Ok(done)
}
