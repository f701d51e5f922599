ghost use Rattle.std.specs.Prelude.{◌≡◌, IfOk};
ghost use Rattle.im_ctree.specs.Shape.{tree_of};
ghost use Rattle.im_check_name_map.specs.im_rules.Outline as o;
ghost use Rattle.im_check_outline.specs.Outlines.{outline_in};

use crate::defined::{bodies_among, statics_among};
use crate::item::Walk;
use crate::walk::walked;
use im_check_name_map::{NameList, TagList};
use im_ctree::Tree;
use im_num::NoMemory;
use std::alloc::Global;

/// What can be told of a unit from its tree alone.
#[derive(Drop)]
pub struct UnitOutline {
    /// The defined objects, in the order of their first declaration.
    pub statics: NameList,
    /// The functions with a body, in order.
    pub bodies: NameList,
    /// The tags of the member lists, in the order in which these end.
    pub lists: TagList,
}

/// The outline of a unit.
pub fn outline(alloc: Global, tree: &Tree) -> Result<UnitOutline, NoMemory>
    ensures { IfOk result (λ made. outline_in made ≡ o.outline (tree_of tree.now)) }
{
    let walk = walked(alloc, tree)?;
    let Walk {
        functions: _functions,
        items,
        lists,
    } = walk;
    let statics = statics_among(alloc, &items)?;
    let bodies = bodies_among(alloc, &items)?;
    Ok(UnitOutline {
        statics,
        bodies,
        lists,
    })
}
