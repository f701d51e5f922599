//! The structs of a unit.
ghost use Rattle.std.specs.Prelude.{◌≡◌, ◌++◌, ◌∷◌, [], length, IfOk, OnOk, OnErr};
ghost use Rattle.im_ctype.specs.Table.{structs_of};
ghost use Rattle.im_check_scopes.specs.im_rules.Rules as u;
ghost use Rattle.im_check_place.specs.Fields.{fields_of};

use crate::entered::entered;
use crate::field::Field;
use crate::free::are_free;
use crate::held::held;
use im_ctype::TypeTable;
use im_num::NoMemory;
use std::alloc::Global;

/// The structs whose member lists have ended, with the types of their members, and of each whether
/// it is free of `const`. Contracts see the table of the types.
#[derive(Drop)]
pub struct Structs {
    table: TypeTable,
    free: Vec<bool>,
}

impl std::marker::Model for Structs {
    ghost use Rattle.std.specs.Prelude.{◌≡◌, []};
    ghost use Rattle.im_ctype.specs.Table.{Table, structs_of};
    ghost use Rattle.im_check_scopes.specs.im_rules.Rules.{free_from};

    ghost Value = { Table };

    ghost view = { λ s. s.table };

    ghost invariant = { λ s. s.free.items ≡ free_from [] (structs_of s.table) };
}

impl Structs {
    /// No member list has ended.
    pub fn new(alloc: Global) -> Structs
        ensures { result ≡ record { nodes = []; structs = [] } }
    {
        Structs {
            table: TypeTable::new(alloc),
            free: Vec::new(alloc),
        }
    }

    pub fn table(&self) -> &TypeTable
        ensures { result.now ≡ self.now }
    {
        &self.table
    }

    /// The table of the types alone.
    pub fn into_table(self) -> TypeTable
        ensures { result ≡ self }
    {
        self.table
    }

    /// Of each struct, whether it has no `const` in its members, nor in those of structs within
    /// them.
    pub fn free(&self) -> &[bool]
        ensures { result.now ≡ u.free_from [] (structs_of self.now) }
    {
        &self.free
    }

    /// The number of structs whose member lists have ended.
    pub fn count(&self) -> usize
        ensures { result ≡ length (structs_of self.now) }
    {
        self.table.struct_count()
    }
    /// Adds a struct whose member list has ended; gives its number. Its members are to have
    /// complete object types and its bytes to be a number of 64 bits, else it is answered by want
    /// of memory.
    pub fn add(&mut self, alloc: Global, fields: &[Field]) -> Result<u32, NoMemory>
        ensures number { IfOk result (λ n. n ≡ length (structs_of self.old)) }
        ensures added { OnOk result (structs_of self.new
            ≡ structs_of self.old ++ fields_of fields.now ∷ []) }
        ensures refused { OnErr result (structs_of self.new ≡ structs_of self.old) }
    {
        let members = entered(alloc, &mut self.table, fields)?;
        held(&self.table, &members)?;
        let is_free = are_free(&self.free, fields);
        self.free.push(is_free)?;
        match self.table.add_struct(alloc, members) {
            Ok(number) => Ok(number),
            Err(_) => {
                let _ = self.free.pop();
                Err(NoMemory::OutOfMemory)
            }
        }
    }
}
