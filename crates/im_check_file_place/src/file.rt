//! What is known at a place at file scope.
ghost use Rattle.std.specs.Prelude.{◌≡◌, IfOk};
ghost use Rattle.im_ctree.specs.Shape.{tree_of};
ghost use Rattle.im_check_place.specs.im_rules.FileScope as f;
ghost use Rattle.im_check_file_place.specs.Files.{file_place_of};

use crate::predeclared::predeclared;
use im_check_name_map::NameList;
use im_check_outline::outline;
use im_check_place::{Place, Structs};
use im_ctree::Tree;
use im_num::{NoMemory, beyond_memory};
use std::alloc::Global;

/// What is known at a place at file scope: what is known at any place; the tags of which a member
/// list has begun; the names that have a body or an initialiser; the bytes of the string literals
/// that initialise no array, in order.
#[derive(Drop)]
pub struct File {
    pub place: Place,
    pub begun: NameList,
    pub whole: NameList,
    pub texts: Vec<Vec<u8>>,
}

impl File {
    /// Before the first declaration of a unit. Want of memory where it defines 2^32 objects or
    /// more.
    pub fn start(alloc: Global, tree: &Tree) -> Result<File, NoMemory>
        ensures { IfOk result (λ file. file_place_of file ≡ f.file_start (tree_of tree.now)) }
    {
        let outline = outline(alloc, tree)?;
        let Ok(next_string) = u32::try_from(outline.statics.len()) else {
            return Err(beyond_memory());
        };
        let scope = predeclared(alloc)?;
        let place = Place {
            scope,
            structs: Structs::new(alloc),
            next_string,
            outline,
        };
        Ok(File {
            place,
            begun: NameList::new(alloc),
            whole: NameList::new(alloc),
            texts: Vec::new(alloc),
        })
    }
}
