//! Where the body of a function begins, and where it ends.
ghost use Rattle.std.specs.Prelude.{◌≡◌, map, take, IfOk};
ghost use Rattle.im_ctree_parts.specs.Lists.{parameters_from};
ghost use Rattle.im_check_declarators.specs.Shape.{declared_of};
ghost use Rattle.im_check_file_functions.specs.Bodies.{IsBegun};

use crate::entered::enter;
use crate::objects::locals;
use im_check_declarators::Declared;
use im_check_file_place::File;
use im_check_name_map::{NameList, TagList};
use im_check_outline::UnitOutline;
use im_check_place::{Place, Structs};
use im_check_scopes::Scope;
use im_check_sites::{Body, Local};
use im_ctree::Parameter;
use im_num::NoMemory;
use im_types::Type;
use std::alloc::Global;
use std::mem;

/// Where nothing is known.
fn nowhere(alloc: Global) -> Place {
    Place {
        scope: Scope::new(alloc),
        structs: Structs::new(alloc),
        next_string: 0,
        outline: UnitOutline {
            statics: NameList::new(alloc),
            bodies: NameList::new(alloc),
            lists: TagList::new(alloc),
        },
    }
}

/// The start of a body: its parameters are in a scope of their own, and are its first objects. What
/// is known at file scope goes into it, until it has ended.
pub(crate) fn begun(
    alloc: Global,
    written: &[Parameter],
    formals: &[Declared],
    ty: Type,
    file: &mut File,
) -> Result<Body, NoMemory>
    ensures { IfOk result (IsBegun file.old ty (parameters_from written.now)
        (map declared_of formals.now) file.new) }
{
    file.place.scope.open()?;
    enter(alloc, written, formals, &mut file.place)?;
    let objects = locals(alloc, formals)?;
    let place = mem::replace(&mut file.place, nowhere(alloc));
    let texts = mem::replace(&mut file.texts, Vec::new(alloc));
    Ok(Body {
        place,
        result: ty,
        locals: objects,
        texts,
    })
}

/// The end of a body, whose scope is closed to the mark. Gives its objects.
pub(crate) fn ended(mark: usize, body: Body, file: &mut File) -> Vec<Local>
    ensures objects { result ≡ body.locals }
    ensures place { file.new ≡ record file.old {
      place = record body.place { scope = take mark body.place.scope };
      texts = body.texts;
    } }
{
    let Body {
        place,
        result: _,
        locals,
        texts,
    } = body;
    file.place = place;
    file.place.scope.close(mark);
    file.texts = texts;
    locals
}
