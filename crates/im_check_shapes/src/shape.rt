use im_ctree::{Expression, Initializer};
use im_types::Type;

/// Which form of initialiser stands for an object (C11 6.7.9).
#[derive(Clone, Copy)]
pub enum Shape<'a> {
    /// One expression, in braces or not.
    One(&'a Expression),
    /// The bytes of a string, for elements of this type.
    Bytes(&'a Type, &'a [u8]),
    /// Elements of this type, side by side.
    Elements(&'a Type, &'a [Initializer]),
    /// Members of the struct of that number, in their order.
    Members(u32, &'a [Initializer]),
    /// The rule on shapes refuses it.
    Misshapen,
}
