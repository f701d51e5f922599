use crate::statement::Stmt;
use im_num::Kind;
use im_store::{TypeId, TypeTable};

/// An object that a function or the program has.
#[derive(Debug, Drop)]
pub struct Object {
    pub name: Vec<u8>,
    pub ty: TypeId,
    /// The bytes that its type takes.
    pub size: u32,
}

/// What a cell of a static holds before the start of `main`.
#[derive(Clone, Copy, Debug)]
pub enum Constant {
    Number(i128),
    Null,
    /// A place in a static object: its number, and bytes from its start.
    Inside { object: u32, offset: u32 },
}

/// A static object, with the first value of each of its cells.
#[derive(Debug, Drop)]
pub struct Static {
    pub object: Object,
    pub cells: Vec<Constant>,
}

/// A function with its body.
#[derive(Debug)]
pub struct Func {
    pub name: Vec<u8>,
    /// How many of its objects are parameters; these come first and hold the arguments.
    pub params: u32,
    /// The kind of its result; none where that is `void`.
    pub result: Option<Kind>,
    pub objects: Vec<Object>,
    pub body: Stmt,
}

impl Drop for Func {
    fn drop(self) {
        let Func {
            name: _,
            params: _,
            result: _,
            objects: _,
            body: _,
        } = self;
    }
}

/// A program: the defined statics in the order of their first declaration, then the string
/// literals that initialise no array, named `$1`, `$2` and so on; and the functions in order.
#[derive(Drop)]
pub struct Prog {
    pub types: TypeTable,
    pub statics: Vec<Static>,
    pub funcs: Vec<Func>,
    /// The number of the function `main`, whose brace gives 0.
    pub main: u32,
}
