ghost use Rattle.std.specs.Prelude.{◌≡◌, ◌∷◌, [], ◌↔◌, IsTrue, MatchResult, OnErr};
ghost use Rattle.std.specs.List.{Contains};
ghost use Rattle.im_parse_core.specs.declared.stop.Stop.TheVariants.{Memory};

use crate::stop::Stop;
use std::alloc::Global;
use std::collections::HashSet;

/// The typedef names in hand, each of which is found in near constant time. Contracts see the
/// list, the one declared last first.
#[derive(Drop)]
pub struct TypedefNames<'b> {
    declared: Vec<&'b [u8]>,
    known: HashSet<&'b [u8]>,
}

impl<'b> std::marker::Model for TypedefNames<'b> {
    ghost use Rattle.std.specs.Prelude.{ℕ, List};

    ghost Value = { List (List ℕ) };

    ghost use Rattle.im_parse_core.specs.Names.{names_of, HasNames};

    ghost view = { λ t. names_of t.declared.items };

    ghost invariant = { λ t. HasNames t.known.keys (names_of t.declared.items) };
}

impl<'b> TypedefNames<'b> {
    /// No names.
    pub fn new(alloc: Global) -> Self
        ensures { result ≡ [] }
    {
        TypedefNames {
            declared: Vec::new(alloc),
            known: HashSet::new(alloc),
        }
    }

    /// Whether a name is one of them.
    pub fn contains(&self, name: &[u8]) -> bool
        ensures { IsTrue result ↔ Contains self.now name.now }
    {
        self.known.contains(name)
    }

    /// Puts a name before the others.
    pub fn push(&mut self, name: &'b [u8]) -> Result<(), Stop>
        ensures pushed { MatchResult result (λ done. self.new ≡ name.now ∷ self.old)
            (λ stop. stop ≡ Memory) }
        ensures unchanged { OnErr result (self.new ≡ self.old) }
    {
        self.declared.push(name)?;
        match self.known.insert(name) {
            Ok(_) => Ok(()),
            Err(_) => {
                let _ = self.declared.pop();
                Err(Stop::Memory)
            }
        }
    }
}
