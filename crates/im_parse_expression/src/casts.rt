//! Casts in a row (C11 6.5.4).
use im_ctree::TypeName;

/// The type of a cast, and the number of the word that it begins with.
#[derive(Drop)]
pub struct CastType {
    pub at: u32,
    pub name: TypeName,
}
