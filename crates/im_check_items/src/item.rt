use im_check_operands::Term;
use im_ctree::Expression;
use im_types::Type;

/// What goes to a place of an object.
#[derive(Drop)]
pub enum Source<'a> {
    /// An expression, with what it is typed to.
    Term(&'a Expression, Term),
    /// A byte of a string.
    Byte(u8),
}

/// What goes where in an object.
#[derive(Drop)]
pub struct Item<'a> {
    /// Bytes from the start of the object.
    pub offset: u64,
    /// The type there.
    pub ty: Type,
    pub source: Source<'a>,
}
