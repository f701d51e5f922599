ghost use Rattle.std.specs.Prelude.{◌≡◌};
ghost use Rattle.im_store.specs.Objects.{same_object};
ghost use Rattle.im_eval_store.specs.Shown.{object_of};

use im_store::Number;

/// Which object of which activation.
#[derive(Clone, Copy, Debug)]
pub struct ObjectName {
    /// Activations are numbered from 1 as they begin; statics are of number 0.
    pub activation: u64,
    /// The bytes of stack in use with the activation's frame on it; 0 of a static.
    pub depth: u32,
    /// The number of its declaration in the program.
    pub number: u64,
}

impl ObjectName {
    /// Whether two names are those of one object.
    pub fn is(self, other: ObjectName) -> bool
        ensures { result ≡ same_object (object_of self) (object_of other) }
    {
        self.activation == other.activation
            && self.depth == other.depth
            && self.number == other.number
    }
}

/// A place in an object.
#[derive(Clone, Copy, Debug)]
pub struct Place {
    pub object: ObjectName,
    /// Bytes from the object's start.
    pub offset: u32,
    /// How many activations stood below the object's when the place was made; the object is looked
    /// for there first.
    pub level: usize,
}

/// What a cell has, and what an expression gives.
#[derive(Clone, Copy, Debug)]
pub enum Value {
    Number(Number),
    Null,
    Pointer(Place),
    /// Nothing yet.
    Unset,
}
