//! What holds of types and of their layouts, whatever the structs of the unit. Each law is a
//! function with an empty body, whose contract says it.
ghost use Rattle.std.specs.Prelude.{◌≡◌, ◌↔◌, ℕ, ◌+◌, ◌%◌, ◌<◌, ◌≤◌, ◌++◌, List, length, slice_get};
ghost use Rattle.std.specs.Prelude.{Some, true};
ghost use Rattle.im_ctype.specs.declared.member.MemberPlace.{MemberPlace};
ghost use Rattle.im_num.specs.Kinds.{bits, is_signed};
ghost use Rattle.im_ctype.specs.declared.integer.Integer.{Integer};
ghost use Rattle.im_ctype.specs.Types.{CType, Member, Structs, array, struct, members_of};
ghost use Rattle.im_ctype.specs.Types.{same_type, kind_of, traits};
ghost use Rattle.im_ctype.specs.Layout.{IsComplete, MembersAreComplete, AreComplete, layout};
ghost use Rattle.im_ctype.specs.Layout.{layouts, moved, round_up, struct_in};
ghost use Rattle.im_ctype.specs.Members.{places, member_cells};
ghost use Rattle.im_ctype.specs.Laws.{CellsInside, CellsAlignedAt, CellsDisjoint, IsAlignment};
ghost use Rattle.im_ctype.specs.Laws.{cells_from, cells_side_by_side};

/// A cell of an integer type has as many bits as the type, and is signed where the type is.
pub fn kind_law()
    ensures bits { (i : Integer) → bits (kind_of i) ≡ (traits i).bits }
    ensures sign { (i : Integer) → is_signed (kind_of i) ≡ (traits i).is_signed }
{}

/// Each cell of an object lies within it: its offset and its bytes are at most the object's bytes.
pub fn cells_inside_law()
    ensures { (structs : Structs) (ty : CType) → CellsInside (layout structs ty) }
{}

/// Each cell of an object lies at a multiple of its own size, where the object lies at a multiple
/// of its type's alignment (C11 6.2.8); offsets themselves are such multiples.
pub fn cells_aligned_law()
    ensures offsets { (structs : Structs) (ty : CType) → CellsAlignedAt 0 (layout structs ty) }
    ensures addresses { (structs : Structs) (ty : CType) (at : ℕ) → at % (layout structs ty).align
        ≡ 0 → CellsAlignedAt at (layout structs ty) }
{}

/// The cells of an object are in order, and no two of them share a byte.
pub fn cells_disjoint_law()
    ensures { (structs : Structs) (ty : CType) → CellsDisjoint (layout structs ty) }
{}

/// The cells of an array are those of its element, once for each element, each time moved on by
/// the element's size (C11 6.2.5).
pub fn array_cells_law()
    ensures { (structs : Structs) (element : CType) (count : ℕ)
        → (layout structs (array element count)).cells
        ≡ cells_side_by_side count (layout structs element) }
{}

/// An alignment is 1, 2 or 4, and a size is a multiple of it, so objects of one type side by side
/// are all aligned (C11 6.2.8, 6.5.3.4).
pub fn size_law()
    ensures alignment { (structs : Structs) (ty : CType) → IsAlignment (layout structs ty).align }
    ensures multiple { (structs : Structs) (ty : CType)
        → (layout structs ty).size % (layout structs ty).align ≡ 0 }
{}

/// A place rounded up is the least multiple of the alignment that is not below it (C11 6.7.2.1).
pub fn round_up_law()
    ensures reaches { (n align : ℕ) → n ≤ round_up n align }
    ensures multiple { (n align : ℕ) → 0 < align → round_up n align % align ≡ 0 }
    ensures least { (n align m : ℕ) → 0 < align → n ≤ m → m % align ≡ 0 → round_up n align ≤ m }
{}

/// A struct whose members have complete types by the structs before it lies as its member list
/// says, each member's type as it lies in the whole unit (C11 6.7.2.1).
pub fn struct_law()
    ensures { (structs : Structs) (n : ℕ) (members : List Member) → slice_get structs n
        ≡ Some members → MembersAreComplete n members → layout structs (struct n)
        ≡ struct_in (layouts structs) members }
{}

/// A complete type keeps its layout when more structs get their member lists.
pub fn more_structs_law()
    ensures { (structs more : Structs) (ty : CType) → IsComplete structs ty
        → layout (structs ++ more) ty ≡ layout structs ty }
{}

/// The cells of a struct are those of its members in their order, each moved to its member's
/// place. From a member's first cell on they are that member's, and it lies within the struct.
pub fn member_law()
    ensures cells { (structs : Structs) (n : ℕ) → AreComplete structs
        → (layout structs (struct n)).cells ≡ member_cells (layouts structs) (members_of structs n)
        (places structs n) }
    ensures from_first { (structs : Structs) (n i : ℕ) (m : Member) (p : MemberPlace)
        → AreComplete structs → slice_get (members_of structs n) i ≡ Some m
        → slice_get (places structs n) i ≡ Some p
        → cells_from p.first_cell (length (layout structs m.type).cells) (layout structs (struct n))
        ≡ moved p.offset (layout structs m.type).cells }
    ensures inside { (structs : Structs) (n i : ℕ) (m : Member) (p : MemberPlace)
        → AreComplete structs → slice_get (members_of structs n) i ≡ Some m
        → slice_get (places structs n) i ≡ Some p
        → p.offset + (layout structs m.type).size ≤ (layout structs (struct n)).size }
{}

/// The test for the same type holds of a type and itself alone (C11 6.2.7).
pub fn same_type_law()
    ensures { (first second : CType) → (same_type first second ≡ true) ↔ (first ≡ second) }
{}
