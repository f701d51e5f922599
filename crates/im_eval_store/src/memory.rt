ghost use Rattle.std.specs.Prelude.{◌≡◌, ℕ, length};

use crate::plan::Plan;
use crate::value::Value;

/// An object that lives.
#[derive(Drop)]
pub struct Live<'p> {
    pub plan: &'p Plan,
    /// What the cell at each offset has.
    pub values: Vec<Value>,
    pub ghost full: { length values.items ≡ length plan.now.kinds.items },
}

/// An activation of a function that hasn't ended, with its objects. The first one, of number 0, is
/// that of the statics.
#[derive(Drop)]
pub struct Activation<'p> {
    pub number: u64,
    /// The bytes of stack in use with its frame on it.
    pub depth: u32,
    /// The number of its first object in the program.
    pub first: u64,
    pub objects: Vec<Live<'p>>,
}

/// The objects that live.
#[derive(Drop)]
pub struct Memory<'p> {
    pub activations: Vec<Activation<'p>>,
}

/// Where an object that lives is held.
#[derive(Clone, Copy, Debug)]
pub struct Position {
    /// How many activations stand below its own.
    pub level: usize,
    /// Its place among the objects of its activation.
    pub index: usize,
}
