//! External declarations, in order (C11 6.9).
ghost use Rattle.std.specs.Prelude.{MatchResult};
ghost use Rattle.im_ctree.specs.Shape.{external_of, externals_of, tree_of};
ghost use Rattle.im_ctree.specs.declared.unit.External.TheVariants as ext;
ghost use Rattle.im_check_file_place.specs.Files.{file_place_of};
ghost use Rattle.im_check_file_functions.specs.Definitions.{DefinitionDone};
ghost use Rattle.im_check_externals.specs.Externals.{ExternalDone, ExternalsDone};
ghost use Rattle.im_check_externals.specs.Faults.{IsExternalFault, IsExternalsFault};

use crate::declaration::declaration;
use crate::fault::{UnitFault, in_declarator};
use im_check_defined::{Defined, FirstValues};
use im_check_file_functions::definition;
use im_check_file_place::File;
use im_ctree::{External, Function, Tree};
use std::alloc::Global;

/// What external declarations define, in their order: the first values that initialisers give
/// statics, and the functions that have a body.
#[derive(Drop)]
pub struct UnitDefined {
    pub firsts: Vec<FirstValues>,
    pub functions: Vec<Defined>,
}

fn function(alloc: Global, f: &Function, file: &mut File) -> Result<Defined, UnitFault>
    ensures { let x = external_of (ext.Function f.now) in MatchResult result
        (DefinitionDone file.old x file.new)
        (IsExternalFault (file_place_of file.old) x) }
{
    match definition(alloc, f, file) {
        Ok(defined) => Ok(defined),
        Err(stop) => Err(in_declarator(alloc, stop, &f.declarator)),
    }
}

/// A declaration or a function definition; what it defines is behind the others.
fn external(
    alloc: Global,
    x: &External,
    file: &mut File,
    done: &mut UnitDefined,
) -> Result<(), UnitFault>
    ensures { let e = external_of x.now in MatchResult result
        (λ _. ExternalDone file.old done.old e file.new done.new)
        (IsExternalFault (file_place_of file.old) e) }
{
    match x {
        External::Declaration(d) => {
            declaration(alloc, d, file, &mut done.firsts)?;
            Ok(())
        }
        External::Function(f) => {
            let defined = function(alloc, f, file)?;
            done.functions.push(defined)?;
            Ok(())
        }
    }
}

fn in_order(alloc: Global, list: Vec<External>, file: &mut File) -> Result<UnitDefined, UnitFault>
    ensures { let u = externals_of list.items in MatchResult result
        (ExternalsDone file.old u file.new)
        (IsExternalsFault (file_place_of file.old) u) }
{
    let mut done = UnitDefined {
        firsts: Vec::new(alloc),
        functions: Vec::new(alloc),
    };
    for x in list {
        external(alloc, &x, file, &mut done)?;
    }
    Ok(done)
}

/// The external declarations of a unit, in order, from where the file stands. Each is given back
/// once it is typed. Of the first size over the limit it is told in which declarator, function or
/// specifiers it was met.
pub fn externals(alloc: Global, tree: Tree, file: &mut File) -> Result<UnitDefined, UnitFault>
    ensures { let u = tree_of tree in MatchResult result (ExternalsDone file.old u file.new)
        (IsExternalsFault (file_place_of file.old) u) }
{
    in_order(alloc, tree.externals, file)
}
