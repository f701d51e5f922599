//! Units (C11 6.9).
ghost use Rattle.std.specs.Prelude.{MatchResult, List};
ghost use Rattle.im_ctree.specs.Shape.{tree_of};
ghost use Rattle.im_rules.specs.Demands.{Demand, Meets};
ghost use Rattle.im_rules.specs.FileScope.{main_asks};
ghost use Rattle.im_check_scopes.specs.Shape.{scopes_of};
ghost use Rattle.im_check_stop.specs.Answers.{IsRefusal};
ghost use Rattle.im_check.specs.Checked.{IsCheckFault};
ghost use Rattle.im_check.specs.Stops.{IsRuleFault};
ghost use Rattle.im_check.specs.Units.{UnitTyped};

use crate::fault::CheckFault;
use im_check_externals::externals;
use im_check_file_names::has_main;
use im_check_file_place::File;
use im_check_program::Parts;
use im_check_scopes::Scope;
use im_check_stop::Stop;
use im_ctree::Tree;
use std::alloc::Global;

/// A rule that refuses, which names no type.
fn of_rule(stop: Stop) -> CheckFault
    requires { (asked : List Demand) × IsRefusal asked 0 stop }
    ensures { (asked : List Demand) → IsRefusal asked 0 stop → IsRuleFault asked result }
{
    match stop {
        Stop::Rule { number, token } => CheckFault::Rule { number, token },
        Stop::Large { .. } => unreachable!(),
        Stop::Memory => CheckFault::OutOfMemory,
    }
}

fn with_main(alloc: Global, scope: &Scope) -> Result<(), CheckFault>
    ensures { let asked = main_asks (scopes_of scope.now) in
        MatchResult result (λ _. Meets asked) (IsRuleFault asked) }
{
    match has_main(alloc, scope) {
        Ok(()) => Ok(()),
        Err(stop) => Err(of_rule(stop)),
    }
}

/// The external declarations of a unit, with a body of `main`. Each is given back once it is typed.
pub(crate) fn unit(alloc: Global, tree: Tree) -> Result<Parts, CheckFault>
    ensures { MatchResult result (UnitTyped (tree_of tree)) (IsCheckFault (tree_of tree)) }
{
    let mut file = File::start(alloc, &tree)?;
    let done = externals(alloc, tree, &mut file)?;
    with_main(alloc, &file.place.scope)?;
    Ok(Parts {
        file,
        given: done.firsts,
        functions: done.functions,
    })
}
