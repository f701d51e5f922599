use im_num::Kind;
use std::marker::Model;

/// Cells of one kind, side by side.
#[derive(Clone, Copy, PartialEq, Eq, Debug)]
pub struct CellRun {
    /// Bytes from the object's start to the first cell.
    pub offset: u32,
    pub kind: Kind,
    /// How many cells.
    pub count: u32,
}

/// A named object among the statics, and the kinds of its cells.
#[derive(Debug, Drop)]
pub struct Object {
    /// The address of its first byte.
    pub at: u32,
    /// In bytes.
    pub size: u32,
    pub name: Vec<u8>,
    /// By offset.
    pub runs: Vec<CellRun>,
}

impl Model for Object {
    ghost use Rattle.im_image.specs.Contents.{ObjectValue};

    ghost Value = { ObjectValue };

    ghost view = { λ a. record {
      at = a.at;
      size = a.size;
      name = a.name.items;
      runs = a.runs.items;
    } };
}
