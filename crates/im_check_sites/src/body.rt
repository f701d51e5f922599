//! What is known at a place of a function's body.
use im_check_place::Place;
use im_types::Type;

/// An object of a function.
#[derive(Drop)]
pub struct Local {
    pub name: Vec<u8>,
    pub ty: Type,
}

/// A function's body up to a place in it: what is known there, the type of the function's result,
/// its objects, and the bytes of its string literals that are statics.
#[derive(Drop)]
pub struct Body {
    pub place: Place,
    pub result: Type,
    pub locals: Vec<Local>,
    pub texts: Vec<Vec<u8>>,
}
