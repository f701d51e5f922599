//! Numbers of names.
ghost use Rattle.std.specs.Prelude.{◌≡◌, if◌then◌else◌, [], None, OnOk, OnErr};
ghost use Rattle.im_rules.specs.im_word.Words.{Name};
ghost use Rattle.im_rules.specs.TypeTests.{same_name};
ghost use Rattle.im_check_name_map.specs.Numbers.{number_of};

use im_num::NoMemory;
use std::alloc::Global;
use std::collections::HashMap;

/// The numbers that names have. Contracts see the list of the names with their numbers.
#[derive(Drop)]
pub struct NameMap {
    numbers: HashMap<Vec<u8>, Option<usize>>,
}

impl std::marker::Model for NameMap {
    ghost use Rattle.std.specs.Prelude.{ℕ, List, Option, map};

    ghost Value = { List (List ℕ × Option ℕ) };

    ghost use Rattle.im_check_name_map.specs.Numbers.{entries_of};

    ghost view = { λ m. entries_of m.numbers.entries };
}

impl NameMap {
    /// No name has a number.
    pub fn new(alloc: Global) -> NameMap
        ensures { result ≡ [] }
    {
        NameMap {
            numbers: HashMap::new(alloc),
        }
    }

    /// The number of a name.
    pub fn number(&self, name: &[u8]) -> Option<usize>
        ensures { result ≡ number_of self.now name.now }
    {
        match self.numbers.get(name) {
            Some(number) => *number,
            None => None,
        }
    }

    /// Gives a name this number. Memory runs out only where the name never had one.
    pub fn set(&mut self, name: Vec<u8>, number: Option<usize>) -> Result<(), NoMemory>
        ensures set { OnOk result ((x : Name) → number_of self.new x
            ≡ (if same_name name.items x then number else number_of self.old x)) }
        ensures unchanged { OnErr result (self.new ≡ self.old) }
        ensures absent { OnErr result (number_of self.old name.items ≡ None) }
    {
        self.numbers.insert(name, number)?;
        Ok(())
    }
}
