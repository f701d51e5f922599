use crate::integer::Integer;

/// A type of a table, by its number there.
#[derive(Clone, Copy, PartialEq, Eq, Hash, Debug)]
pub struct TypeId(pub u32);

/// A type of a table (C11 6.2.5), whose parts are named by their numbers.
#[derive(Clone, Copy, PartialEq, Eq, Hash, Debug)]
pub enum TypeNode {
    Void,
    Integer(Integer),
    /// `constant` says that what it points to is `const`; of an array, that its elements are.
    Pointer { constant: bool, target: TypeId },
    Array { element: TypeId, count: u32 },
    /// A struct, by its number in the order in which the member lists of the unit end; a number
    /// past the table is that of a struct that has no member list.
    Struct(u32),
}
