//! Bodies of functions, with their parameters in scope (C11 6.9.1).
ghost use Rattle.std.specs.Prelude.{map, MatchResult};
ghost use Rattle.im_ctree.specs.Shape.{block_items_of};
ghost use Rattle.im_ctree_parts.specs.Lists.{parameters_from};
ghost use Rattle.im_check_declarators.specs.Shape.{declared_of};
ghost use Rattle.im_check_file_place.specs.Files.{file_place_of};
ghost use Rattle.im_check_file_functions.specs.Bodies.{FunctionDone, IsInsideFault};

use crate::begun::{begun, ended};
use crate::objects::{count, name_of, result_kind, returned};
use im_check_declarators::Declared;
use im_check_defined::{Defined, are_complete};
use im_check_file_place::File;
use im_check_statements::body;
use im_check_stop::Stop;
use im_ctree::{BlockItem, Parameter};
use im_num::beyond_memory;
use std::alloc::Global;

/// The function of that head with this body. `formals` are its parameters, as `written` declares
/// them.
pub(crate) fn with_body(
    alloc: Global,
    written: &[Parameter],
    formals: &[Declared],
    y: &Declared,
    items: &[BlockItem],
    file: &mut File,
) -> Result<Defined, Stop>
    ensures { let ps = parameters_from written.now in let ds = map declared_of formals.now in
        let is = block_items_of items.now in MatchResult result
        (FunctionDone file.old (declared_of y.now) ps ds is file.new)
        (IsInsideFault (file_place_of file.old) (declared_of y.now) ps ds is) }
{
    let mark = file.place.scope.mark();
    let ty = returned(alloc, &y.ty)?;
    let result = result_kind(&ty);
    let params = count(formals)?;
    let name = name_of(alloc, y)?;
    let mut inside = begun(alloc, written, formals, ty, file)?;
    let body = body(alloc, items, &mut inside)?;
    let objects = ended(mark, inside, file);
    if !are_complete(file.place.structs.count(), &objects) {
        return Err(Stop::from(beyond_memory()));
    }
    Ok(Defined {
        name,
        params,
        result,
        objects,
        body,
    })
}
