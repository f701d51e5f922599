use crate::node::TypeId;

/// A member of a struct. `constant` says that its own type is `const`.
#[derive(Debug, Drop)]
pub struct Member {
    pub name: Vec<u8>,
    pub constant: bool,
    pub ty: TypeId,
}

/// Where a member lies: bytes from its struct's start, and the number of the first of its cells.
#[derive(Clone, Copy, PartialEq, Eq, Debug)]
pub struct MemberPlace {
    pub offset: u64,
    pub first_cell: u64,
}
