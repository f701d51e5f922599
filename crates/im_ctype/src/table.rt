ghost use Rattle.std.specs.Prelude.{◌≡◌, ℕ, ◌<◌, ◌^◌, ◌*◌, ◌++◌, true, [], ◌∷◌, length, slice_get};
ghost use Rattle.std.specs.Prelude.{Some, IfOk, OnOk, OnErr};
ghost use Rattle.im_ctype.specs.Types.{same_type};
ghost use Rattle.im_ctype.specs.Members.{places, places_in};
ghost use Rattle.im_ctype.specs.Kept.{AreMembersIn, kept_extent, extent_of};
ghost use Rattle.im_ctype.specs.Layout.{layouts, layout_at, struct_in, AreComplete};
ghost use Rattle.im_ctype.specs.Layout.{MembersAreComplete};
ghost use Rattle.im_ctype.specs.Table.{IsEarlier, IsSound, with_struct, members_at, members_in};
ghost use Rattle.im_ctype.specs.Table.{IsIn, IsTypeOf, IsGrown, type_at, type_of_node, types_of};
ghost use Rattle.im_ctype.specs.Table.{structs_of, layout_of};

use crate::extent::{Extent, round_up};
use crate::member::{Member, MemberPlace};
use crate::node::{TypeId, TypeNode};
use crate::nodes::Nodes;
use im_num::{NoMemory, beyond_memory};
use std::alloc::Global;

/// A struct of a table, with what is kept of it.
#[derive(Drop)]
struct Structure {
    members: Vec<Member>,
    places: Vec<MemberPlace>,
    extent: Extent,
}

/// The types of a unit, each once and named by its number, and the structs whose member lists have
/// ended. A type names types that stand before it, so nothing here recurses with a type's depth.
#[derive(Drop)]
pub struct TypeTable {
    nodes: Nodes,
    extents: Vec<Extent>,
    structs: Vec<Structure>,
}

impl std::marker::Model for TypeTable {
    ghost use Rattle.im_ctype.specs.Table.{Table};

    ghost Value = { Table };

    ghost use Rattle.std.specs.Prelude.{map};
    ghost use Rattle.im_ctype.specs.declared.table.Structure.{Structure};
    ghost use Rattle.im_ctype.specs.Kept.{IsKept};

    ghost view = { λ t. record {
      nodes = t.nodes;
      structs = map {A = Structure}
          (λ s. s.members.items) t.structs.items;
    } };

    ghost invariant = { λ t. IsKept (record { nodes = t.nodes; structs = map {A = Structure} (λ s. s.members.items) t.structs.items }) t.extents.items (map {A = Structure} (λ s. record { places = s.places.items; extent = s.extent }) t.structs.items) };
}

impl TypeTable {
    /// The table without a type or a struct.
    pub fn new(alloc: Global) -> TypeTable
        ensures { result ≡ record { nodes = []; structs = [] } }
    {
        TypeTable {
            nodes: Nodes::new(alloc),
            extents: Vec::new(alloc),
            structs: Vec::new(alloc),
        }
    }

    /// The number of structs whose member lists have ended.
    pub fn struct_count(&self) -> usize
        ensures { result ≡ length self.now.structs }
    {
        self.structs.len()
    }

    /// What the type of that number is.
    pub fn node(&self, ty: TypeId) -> TypeNode
        requires { IsIn self.now ty }
        ensures type_is { type_at self.now ty ≡ type_of_node (types_of self.now) result }
        ensures earlier { IsEarlier ty.0 result }
        ensures sound { IsSound (length self.now.structs) (types_of self.now) result }
        ensures complete { AreComplete (structs_of self.now) }
    {
        self.nodes.get(ty)
    }

    /// Whether two types are the same (C11 6.2.7): a type has one number.
    pub fn same(&self, first: TypeId, second: TypeId) -> bool
        requires first_in { IsIn self.now first }
        requires second_in { IsIn self.now second }
        ensures { result ≡ same_type (type_at self.now first) (type_at self.now second) }
    {
        let _nodes = &self.nodes;
        first.0 == second.0
    }

    /// The extent of an object of that type; nothing of what has no complete object type.
    pub fn extent(&self, ty: TypeId) -> Extent
        requires { IsIn self.now ty }
        ensures { result ≡ extent_of (layout_of self.now ty) }
    {
        match self.nodes.get(ty) {
            TypeNode::Struct(number) => self.struct_extent(number),
            _ => self.extents[ty.0 as usize],
        }
    }

    /// The extent of a struct; nothing where it has no member list.
    pub(crate) fn struct_extent(&self, number: u32) -> Extent
        ensures { result ≡ extent_of (layout_at (layouts (structs_of self.now)) number) }
    {
        match self.structs.get(number as usize) {
            Some(structure) => structure.extent,
            None => Extent {
                size: 0,
                alignment: 1,
                cells: 0,
            },
        }
    }

    /// The number of the type that a node is; it is added where it isn't there.
    pub(crate) fn intern(&mut self, node: TypeNode, extent: Extent) -> Result<TypeId, NoMemory>
        requires earlier { IsEarlier (length self.old.nodes) node }
        requires sound { IsSound (length self.old.structs) (types_of self.old) node }
        requires extent_is { extent ≡ kept_extent (layouts (structs_of self.old))
            (type_of_node (types_of self.old) node) }
        ensures type_is { IfOk result (IsTypeOf self.new (type_of_node (types_of self.old) node)) }
        ensures grown { IsGrown self.old self.new }
        ensures refused { OnErr result (self.new ≡ self.old) }
    {
        if let Some(found) = self.nodes.find(node) {
            return Ok(found);
        }
        self.extents.push(extent)?;
        match self.nodes.push(node) {
            Ok(ty) => Ok(ty),
            Err(_) => {
                let _ = self.extents.pop();
                Err(NoMemory::OutOfMemory)
            }
        }
    }

    /// The members of a struct; none where it has no member list.
    pub fn members(&self, number: u32) -> &[Member]
        ensures members { result.now ≡ members_at self.now number }
        ensures known { AreMembersIn (length self.now.nodes) result.now }
        ensures complete { AreComplete (structs_of self.now) }
    {
        match self.structs.get(number as usize) {
            Some(structure) => &structure.members,
            None => &[],
        }
    }

    /// Where the members of a struct lie; nothing where it has no member list.
    pub fn places(&self, number: u32) -> &[MemberPlace]
        ensures { result.now ≡ places (structs_of self.now) number }
    {
        match self.structs.get(number as usize) {
            Some(structure) => &structure.places,
            None => &[],
        }
    }

    /// Adds a struct, whose members have complete object types; gives its number.
    pub fn add_struct(&mut self, alloc: Global, members: Vec<Member>) -> Result<u32, NoMemory>
        requires known { AreMembersIn (length self.old.nodes) members.items }
        requires complete { MembersAreComplete (length self.old.structs)
            (members_in (types_of self.old) members.items) }
        requires held { (struct_in (layouts (structs_of self.old))
            (members_in (types_of self.old) members.items)).size < 2 ^ 64 }
        ensures number { IfOk result (λ n. n ≡ length self.old.structs) }
        ensures grown { OnOk result (self.new ≡ with_struct self.old members.items) }
        ensures refused { OnErr result (self.new ≡ self.old) }
    {
        let Ok(number) = u32::try_from(self.structs.len()) else {
            return Err(beyond_memory());
        };
        let (places, extent) = self.placed(alloc, &members)?;
        let structure = Structure {
            members,
            places,
            extent,
        };
        self.structs.push(structure)?;
        Ok(number)
    }

    /// Where these members lie, one behind another, and the extent of a struct of them (C11
    /// 6.7.2.1p15).
    fn placed(
        &self,
        alloc: Global,
        members: &[Member],
    ) -> Result<(Vec<MemberPlace>, Extent), NoMemory>
        requires known { AreMembersIn (length self.now.nodes) members.now }
        requires held { (struct_in (layouts (structs_of self.now))
            (members_in (types_of self.now) members.now)).size < 2 ^ 64 }
        ensures places { IfOk result (λ found. found.0.items
            ≡ places_in (layouts (structs_of self.now))
            (members_in (types_of self.now) members.now)) }
        ensures extent { IfOk result (λ found. found.1
            ≡ extent_of (struct_in (layouts (structs_of self.now))
            (members_in (types_of self.now) members.now))) }
    {
        let mut places = Vec::new(alloc);
        let mut size = 0;
        let mut alignment = 1;
        let mut cells = 0;
        for member in members {
            let part = self.extent(member.ty);
            let offset = round_up(size, part.alignment);
            places.push(MemberPlace {
                offset,
                first_cell: cells,
            })?;
            size = offset + part.size;
            alignment = alignment.max(part.alignment);
            cells += part.cells;
        }
        let extent = Extent {
            size: round_up(size, alignment),
            alignment,
            cells,
        };
        Ok((places, extent))
    }
}
