//! What is known at a place of the text.
ghost use Rattle.std.specs.Prelude.{◌≡◌, ◌+◌, OnOk, OnErr};

use crate::structs::Structs;
use im_check_outline::UnitOutline;
use im_check_scopes::Scope;
use im_num::{NoMemory, beyond_memory};

/// What is known at a place of the text: what names and tags mean, the structs whose member lists
/// have ended, the number of the static that the next string literal is, and the unit's outline.
#[derive(Drop)]
pub struct Place {
    pub scope: Scope,
    pub structs: Structs,
    pub next_string: u32,
    pub outline: UnitOutline,
}

impl Place {
    /// Goes on behind a string literal.
    pub fn pass_string(&mut self) -> Result<(), NoMemory>
        ensures passed { OnOk result
            (self.new ≡ record self.old { next_string = self.old.next_string + 1 }) }
        ensures unchanged { OnErr result (self.new ≡ self.old) }
    {
        let Some(next) = self.next_string.checked_add(1) else {
            return Err(beyond_memory());
        };
        self.next_string = next;
        Ok(())
    }
}
