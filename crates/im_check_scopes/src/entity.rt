use im_serve::Service;
use im_store::Number;
use im_types::Type;

/// Where an object lies.
#[derive(Clone, Copy, Debug)]
pub enum Storage {
    /// A static, by its number.
    Static(u32),
    /// An object of the function, by its number.
    Local(u32),
}

/// The body of a function.
#[derive(Clone, Copy, Debug)]
pub enum Callee {
    /// A function of the unit, by its number.
    Body(u32),
    NoBody,
    Service(Service),
}

/// What an ordinary name means (C11 6.2.1).
#[derive(Drop)]
pub enum Entity {
    /// An object, const or not.
    Object(bool, Type, Storage),
    /// A function, whose result is const or not.
    Function(Callee, bool, Type),
    /// An enumeration constant.
    Enumerator(Number),
    /// A typedef name for a type, const or not.
    Typedef(bool, Type),
}

/// What a tag means (C11 6.7.2.3).
#[derive(Clone, Copy, Debug)]
pub enum Tag {
    /// A struct, by its number.
    Struct(u32),
    Enum,
}

/// One step of the scopes.
#[derive(Drop)]
pub enum Entry {
    /// A scope is opened.
    Opened,
    Named(Vec<u8>, Entity),
    Tagged(Vec<u8>, Tag),
}
