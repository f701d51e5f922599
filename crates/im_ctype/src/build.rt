ghost use Rattle.std.specs.Prelude.{◌≡◌, ◌<◌, ◌^◌, ◌*◌, true, length, IfOk, OnErr};
ghost use Rattle.im_ctype.specs.Table.{IsIn, IsTypeOf, IsGrown, type_at, layout_of};
ghost use Rattle.im_ctype.specs.Types.{void, integer, pointer, array, struct, is_complete};

use crate::extent::Extent;
use crate::integer::{Integer, bytes_of_kind};
use crate::node::{TypeId, TypeNode};
use crate::table::TypeTable;
use im_num::NoMemory;

impl Extent {
    /// One cell of so many bytes, aligned to its own size.
    fn of_cell(bytes: u64) -> Extent
        ensures { result ≡ record { size = bytes; alignment = bytes; cells = 1 } }
    {
        Extent {
            size: bytes,
            alignment: bytes,
            cells: 1,
        }
    }
}

/// Each of these gives the number of a type, which is added where the table doesn't have it.
impl TypeTable {
    pub fn void(&mut self) -> Result<TypeId, NoMemory>
        ensures type_is { IfOk result (IsTypeOf self.new void) }
        ensures grown { IsGrown self.old self.new }
        ensures refused { OnErr result (self.new ≡ self.old) }
    {
        let nothing = Extent {
            size: 0,
            alignment: 1,
            cells: 0,
        };
        self.intern(TypeNode::Void, nothing)
    }

    pub fn integer(&mut self, ty: Integer) -> Result<TypeId, NoMemory>
        ensures type_is { IfOk result (IsTypeOf self.new (integer ty)) }
        ensures grown { IsGrown self.old self.new }
        ensures refused { OnErr result (self.new ≡ self.old) }
    {
        let extent = Extent::of_cell(bytes_of_kind(ty.kind()));
        self.intern(TypeNode::Integer(ty), extent)
    }

    /// A pointer; `constant` says that its target is `const`.
    pub fn pointer(&mut self, constant: bool, target: TypeId) -> Result<TypeId, NoMemory>
        requires { IsIn self.old target }
        ensures type_is { IfOk result (IsTypeOf self.new
            (pointer constant (type_at self.old target))) }
        ensures grown { IsGrown self.old self.new }
        ensures refused { OnErr result (self.new ≡ self.old) }
    {
        self.intern(TypeNode::Pointer { constant, target }, Extent::of_cell(4))
    }

    /// An array of so many elements of a complete object type.
    pub fn array(&mut self, element: TypeId, count: u32) -> Result<TypeId, NoMemory>
        requires known { IsIn self.old element }
        requires complete { is_complete (length self.old.structs) (type_at self.old element)
            ≡ true }
        requires some { 0 < count }
        requires held { count * (layout_of self.old element).size < 2 ^ 64 }
        ensures type_is { IfOk result (IsTypeOf self.new (array (type_at self.old element) count)) }
        ensures grown { IsGrown self.old self.new }
        ensures refused { OnErr result (self.new ≡ self.old) }
    {
        let part = self.extent(element);
        let extent = Extent {
            size: count as u64 * part.size,
            alignment: part.alignment,
            cells: count as u64 * part.cells,
        };
        self.intern(TypeNode::Array { element, count }, extent)
    }

    /// A struct, by its number; it may be one that has no member list yet.
    pub fn structure(&mut self, number: u32) -> Result<TypeId, NoMemory>
        ensures type_is { IfOk result (IsTypeOf self.new (struct number)) }
        ensures grown { IsGrown self.old self.new }
        ensures refused { OnErr result (self.new ≡ self.old) }
    {
        let kept_with_its_members = Extent {
            size: 0,
            alignment: 1,
            cells: 0,
        };
        self.intern(TypeNode::Struct(number), kept_with_its_members)
    }
}
