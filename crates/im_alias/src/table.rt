ghost use Rattle.std.specs.Prelude.{◌≡◌, ◌<◌, IfOk, length};
ghost use Rattle.im_alias.specs.Sets.{Grows, IsThere, Put, SameSets};

use crate::set::ObjectSet;
use im_num::NoMemory;
use std::alloc::Global;

/// A set for each register of a function: which objects it may point to.
#[derive(Drop)]
pub struct RegisterSets {
    pub sets: Vec<ObjectSet>,
}

/// Whose set: an object's, what a function returns, or what a register of a function may have
/// where a block begins. All go by their numbers.
#[derive(Clone, Copy)]
pub enum Owner {
    Object(usize),
    Returned(usize),
    Register { function: usize, register: usize },
}

/// The sets of a unit.
#[derive(Drop)]
pub struct Table {
    pub objects: Vec<ObjectSet>,
    pub returned: Vec<ObjectSet>,
    pub registers: Vec<RegisterSets>,
}

impl RegisterSets {
    pub fn copy(&self, alloc: Global) -> Result<RegisterSets, NoMemory>
        ensures { IfOk result (λ copied. SameSets self.now copied) }
    {
        let mut sets = Vec::new(alloc);
        for set in &self.sets {
            sets.push(set.copy(alloc)?)?;
        }
        Ok(RegisterSets { sets })
    }

    /// Whether the register's set wasn't all of that yet.
    fn add_all(&mut self, register: usize, objects: &ObjectSet) -> Result<bool, NoMemory>
        requires { register < length self.old.sets.items }
        ensures { IfOk result (λ changed. Put self.old.sets.items self.new.sets.items register objects.now.members.items changed) }
    {
        self.sets[register].add_all(objects)
    }
}

impl Table {
    /// Whether the owner's set wasn't all of that yet.
    pub fn add_all(&mut self, owner: Owner, objects: &ObjectSet) -> Result<bool, NoMemory>
        requires { IsThere self.old owner }
        ensures { IfOk result (λ changed. Grows owner objects.now.members.items self.old self.new changed) }
    {
        match owner {
            Owner::Object(number) => self.objects[number].add_all(objects),
            Owner::Returned(function) => self.returned[function].add_all(objects),
            Owner::Register { function, register } => {
                self.registers[function].add_all(register, objects)
            }
        }
    }
}
