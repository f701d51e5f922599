//! The checker (docs/rules.md).
ghost use Rattle.std.specs.Prelude.{◌≡◌, MatchResult};
ghost use Rattle.im_ctree.specs.Tree as t;
ghost use Rattle.im_ctree.specs.Shape.{tree_of};
ghost use Rattle.im_check_counts.specs.Heads.{heads_in};
ghost use Rattle.im_rules_limits.specs.Limits as l;
ghost use Rattle.im_rules_sound_unit.specs.im_rules_sound_places.Units.{IsWrittenUnit};
ghost use Rattle.im_check.specs.Checked.{IsChecked, IsCheckFault};
ghost use Rattle.im_check.specs.Units.{UnitTyped};

use crate::fault::CheckFault;
use crate::limits::{are_few, are_small};
use crate::units::unit;
use im_check_counts::{Head, function_heads};
use im_check_program::{Parts, program};
use im_ctree::Tree;
use im_rules_sound_unit::units_law;
use im_typed::{Prog, more_structs_law};
use std::alloc::Global;

/// The program of a unit whose external declarations are typed, if it is within the limits; `heads`
/// are the functions that it declares.
fn unit_program(alloc: Global, heads: &[Head], typed: &mut Parts) -> Result<Prog, CheckFault>
    ensures { (u : t.Tree) → IsWrittenUnit u → UnitTyped u typed.old
        → heads_in heads.now ≡ l.function_heads u
        → MatchResult result (IsChecked u) (IsCheckFault u) }
{
    units_law();
    more_structs_law();
    are_few(alloc, &typed.file.place.scope, heads)?;
    let prog = program(alloc, typed)?;
    are_small(&prog)?;
    Ok(prog)
}

/// The program of a tree whose words are as a source has them. The tree is given back, part by
/// part, as its program grows.
pub fn check(alloc: Global, tree: Tree) -> Result<Prog, CheckFault>
    requires { IsWrittenUnit (tree_of tree) }
    ensures { MatchResult result (IsChecked (tree_of tree)) (IsCheckFault (tree_of tree)) }
{
    let heads = function_heads(alloc, &tree)?;
    let mut typed = unit(alloc, tree)?;
    unit_program(alloc, &heads, &mut typed)
}
