use im_check_name_map::{NameList, TagList};

/// What a declarator declares, by what the tree tells.
#[derive(Clone, Copy, Debug)]
pub(crate) enum Sort {
    Type,
    Object,
    Function,
}

/// A declarator at file scope.
#[derive(Drop)]
pub(crate) struct Item {
    pub(crate) name: Vec<u8>,
    pub(crate) sort: Sort,
    pub(crate) is_extern: bool,
    /// An initialiser or a body stands behind it.
    pub(crate) is_whole: bool,
}

/// What is found on the way through a unit.
#[derive(Drop)]
pub(crate) struct Walk {
    /// The typedef names of function types.
    pub(crate) functions: NameList,
    pub(crate) items: Vec<Item>,
    pub(crate) lists: TagList,
}
