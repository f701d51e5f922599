ghost use Rattle.std.specs.Prelude.{◌≡◌, ℕ, ◌<◌, ◌++◌, [], ◌∷◌, length, slice_get, Some, IfSome};
ghost use Rattle.std.specs.Prelude.{IfNone, IfOk, OnOk, OnErr};
ghost use Rattle.im_ctype.specs.Kept.{AreNodes};
ghost use Rattle.im_ctype.specs.Table.{IsEarlier};

use crate::node::{TypeId, TypeNode};
use im_num::{NoMemory, beyond_memory};
use std::alloc::Global;
use std::collections::HashMap;

/// The nodes of a table, each of which names earlier ones; none stands there twice. Contracts see
/// the list of them.
#[derive(Drop)]
pub(crate) struct Nodes {
    list: Vec<TypeNode>,
    numbers: HashMap<TypeNode, u32>,
}

impl std::marker::Model for Nodes {
    ghost use Rattle.std.specs.Prelude.{List};
    ghost use Rattle.im_ctype.specs.declared.node.TypeNode.{TypeNode};

    ghost Value = { List TypeNode };

    ghost use Rattle.im_ctype.specs.Kept.{AreNodes};
    ghost use Rattle.im_ctype.specs.Numbered.{AreNumbered};

    ghost view = { λ nodes. nodes.list.items };

    ghost invariant = { λ nodes. AreNodes nodes.list.items
        × AreNumbered nodes.list.items nodes.numbers };
}

impl Nodes {
    pub(crate) fn new(alloc: Global) -> Nodes
        ensures { result ≡ [] }
    {
        Nodes {
            list: Vec::new(alloc),
            numbers: HashMap::new(alloc),
        }
    }

    pub(crate) fn len(&self) -> usize
        ensures { result ≡ length self.now }
    {
        self.list.len()
    }

    pub(crate) fn get(&self, ty: TypeId) -> TypeNode
        requires { ty.0 < length self.now }
        ensures { slice_get self.now ty.0 ≡ Some result }
    {
        self.list[ty.0 as usize]
    }

    pub(crate) fn find(&self, node: TypeNode) -> Option<TypeId>
        ensures found { IfSome result (λ ty. slice_get self.now ty.0 ≡ Some node) }
        ensures absent { IfNone result ((i : ℕ) → slice_get self.now i ≡ Some node → ⊥) }
    {
        let number = self.numbers.get(&node)?;
        Some(TypeId(*number))
    }

    /// Adds a node that isn't there.
    pub(crate) fn push(&mut self, node: TypeNode) -> Result<TypeId, NoMemory>
        requires absent { (i : ℕ) → slice_get self.old i ≡ Some node → ⊥ }
        requires earlier { IsEarlier (length self.old) node }
        ensures number { IfOk result (λ ty. ty.0 ≡ length self.old) }
        ensures grown { OnOk result (self.new ≡ self.old ++ node ∷ []) }
        ensures refused { OnErr result (self.new ≡ self.old) }
        ensures kept { AreNodes self.new }
    {
        let Ok(number) = u32::try_from(self.list.len()) else {
            return Err(beyond_memory());
        };
        self.list.push(node)?;
        match self.numbers.insert(node, number) {
            Ok(_) => Ok(TypeId(number)),
            Err(_) => {
                let _ = self.list.pop();
                Err(NoMemory::OutOfMemory)
            }
        }
    }
}
