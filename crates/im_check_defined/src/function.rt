//! Functions of a unit.
ghost use Rattle.std.specs.Prelude.{◌≡◌};
ghost use Rattle.im_types.specs.Shape.{type_of};
ghost use Rattle.im_check_sites.specs.im_ctype.Types as t;
ghost use Rattle.im_check_defined.specs.Functions.{all_complete};

use im_check_sites::Local;
use im_num::Kind;
use im_typed::Stmt;
use im_types::is_complete;

/// A function with its body (C11 6.9.1), by the structs whose member lists had ended before it.
#[derive(Drop)]
pub struct Defined {
    pub name: Vec<u8>,
    /// How many of its objects are parameters; these come first.
    pub params: u32,
    /// The kind of its result; none where that is `void`.
    pub result: Option<Kind>,
    pub objects: Vec<Local>,
    pub body: Stmt,
}

fn has_complete_type(known: usize, object: &Local) -> bool
    ensures { result ≡ t.is_complete known (type_of object.now.ty) }
{
    is_complete(known, &object.ty)
}

/// Whether the types of objects are complete where so many structs have their member lists, as
/// those of a function are.
pub fn are_complete(known: usize, objects: &[Local]) -> bool
    ensures { result ≡ all_complete known objects.now }
{
    for object in objects {
        if !has_complete_type(known, object) {
            return false;
        }
    }
    true
}
