ghost use Rattle.std.specs.Prelude.{◌≡◌, ℕ, OnOk};
ghost use Rattle.im_store.specs.Objects.{Store, ends};
ghost use Rattle.im_eval_store.specs.Living.{Holds};
ghost use Rattle.im_eval_store.specs.Changes.{IsBegun};

use crate::memory::{Activation, Memory};
use im_num::NoMemory;

impl<'p> Memory<'p> {
    /// An activation begins: its objects live (C11 6.2.4p5).
    pub fn begin(&mut self, activation: Activation<'p>) -> Result<(), NoMemory>
        ensures { OnOk result ((last : ℕ) (store new : Store) → Holds self.old last store
            → IsBegun activation.entry last store new
            → Holds self.new activation.entry.number new) }
    {
        self.activations.push(activation)?;
        Ok(())
    }

    /// The activation of that number ends: its objects die (C11 6.2.4p5). `level` is where it is
    /// looked for first.
    pub fn end(&mut self, number: u64, level: usize)
        ensures { (last : ℕ) (store : Store) → Holds self.old last store
            → Holds self.new last (ends store number) }
    {
        match self.level_of(number, level) {
            None => {}
            Some(at) => {
                let _ = self.activations.remove(at);
            }
        }
    }
}
