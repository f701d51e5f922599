//! The scopes at a place of the text.
ghost use Rattle.std.specs.Prelude.{◌≡◌, ◌-◌, ◌<◌, ◌++◌, ◌∷◌, [], take, length, OnOk, OnErr};
ghost use Rattle.im_check_scopes.specs.Shape.{scopes_of, with_entry, entity_of, tag_of};
ghost use Rattle.im_check_name_map.specs.im_rules.Scopes as s;

use crate::entity::{Entity, Entry, Tag};
use im_check_name_map::NameMap;
use im_num::NoMemory;
use std::alloc::Global;

/// An entry, with the place of the last one before it that is alike.
#[derive(Drop)]
pub(crate) struct Kept {
    pub(crate) entry: Entry,
    pub(crate) shadowed: Option<usize>,
}

/// The scopes at a place of the text. Contracts see the entries that made them, the outermost
/// first.
#[derive(Drop)]
pub struct Scope {
    pub(crate) kept: Vec<Kept>,
    pub(crate) names: NameMap,
    pub(crate) tags: NameMap,
    /// The place of the last entry that opened a scope.
    pub(crate) innermost: Option<usize>,
}

impl std::marker::Model for Scope {
    ghost use Rattle.std.specs.Prelude.{List};
    ghost use Rattle.im_check_scopes.specs.declared.entity.Entry.{Entry};
    ghost use Rattle.im_types.specs.contracts.tree.Type as types;
    ghost use Rattle.std.specs.Coded.{codes};

    ghost Value = { List Entry };

    ghost coded = { Prim.hlevel (codes, types.the_row.coded) };

    ghost use Rattle.im_check_scopes.specs.Indexed.{entries_of, IsIndexed};

    ghost view = { λ s. entries_of s.kept.items };

    ghost invariant = { λ s. IsIndexed s.kept.items s.names s.tags s.innermost };
}

impl Scope {
    /// Nothing is declared.
    pub fn new(alloc: Global) -> Scope
        ensures { result ≡ [] }
    {
        Scope {
            kept: Vec::new(alloc),
            names: NameMap::new(alloc),
            tags: NameMap::new(alloc),
            innermost: None,
        }
    }

    /// The mark to which a scope that is opened next is closed.
    pub fn mark(&self) -> usize
        ensures { result ≡ length self.now }
    {
        self.kept.len()
    }

    pub fn open(&mut self) -> Result<(), NoMemory>
        ensures grown { OnOk result (self.new ≡ self.old ++ Entry.Opened ∷ []) }
        ensures scopes { OnOk result (scopes_of self.new ≡ s.opened (scopes_of self.old)) }
        ensures unchanged { OnErr result (self.new ≡ self.old) }
    {
        let place = self.kept.len();
        let kept = Kept {
            entry: Entry::Opened,
            shadowed: self.innermost,
        };
        self.kept.push(kept)?;
        self.innermost = Some(place);
        Ok(())
    }

    /// Declares a name in the innermost scope.
    pub fn declare(&mut self, alloc: Global, name: Vec<u8>, entity: Entity) -> Result<(), NoMemory>
        ensures grown { OnOk result (self.new ≡ self.old ++ Entry.Named name entity ∷ []) }
        ensures scopes { OnOk result (scopes_of self.new
            ≡ s.named name.items (entity_of entity) (scopes_of self.old)) }
        ensures unchanged { OnErr result (self.new ≡ self.old) }
    {
        let place = self.kept.len();
        let key = Vec::from_slice(alloc, &name)?;
        let shadowed = self.names.number(&name);
        let kept = Kept {
            entry: Entry::Named(name, entity),
            shadowed,
        };
        self.kept.push(kept)?;
        match self.names.set(key, Some(place)) {
            Ok(()) => Ok(()),
            Err(_) => {
                let _ = self.kept.pop();
                Err(NoMemory::OutOfMemory)
            }
        }
    }

    /// Declares a tag in the innermost scope.
    pub fn declare_tag(&mut self, alloc: Global, tag: Vec<u8>, meaning: Tag) -> Result<(), NoMemory>
        ensures grown { OnOk result (self.new ≡ self.old ++ Entry.Tagged tag meaning ∷ []) }
        ensures scopes { OnOk result (scopes_of self.new
            ≡ s.tagged tag.items (tag_of meaning) (scopes_of self.old)) }
        ensures unchanged { OnErr result (self.new ≡ self.old) }
    {
        let place = self.kept.len();
        let key = Vec::from_slice(alloc, &tag)?;
        let shadowed = self.tags.number(&tag);
        let kept = Kept {
            entry: Entry::Tagged(tag, meaning),
            shadowed,
        };
        self.kept.push(kept)?;
        match self.tags.set(key, Some(place)) {
            Ok(()) => Ok(()),
            Err(_) => {
                let _ = self.kept.pop();
                Err(NoMemory::OutOfMemory)
            }
        }
    }

    /// The scopes are those at the mark again.
    pub fn close(&mut self, mark: usize)
        ensures { self.new ≡ take mark self.old }
    {
        while self.mark() > mark {
            self.undo();
        }
    }

    /// Takes the last entry back.
    fn undo(&mut self)
        ensures { self.new ≡ take (length self.old - 1) self.old }
    {
        let Some(last) = self.kept.pop() else {
            return;
        };
        let Kept { entry, shadowed } = last;
        match entry {
            Entry::Opened => self.innermost = shadowed,
            Entry::Named(name, _) => {
                let _ = self.names.set(name, shadowed);
            }
            Entry::Tagged(tag, _) => {
                let _ = self.tags.set(tag, shadowed);
            }
        }
    }
}
