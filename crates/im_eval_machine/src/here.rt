ghost use Rattle.std.specs.Prelude.{◌<◌, ◌^◌};

/// An activation, as its body sees it.
#[derive(Clone, Copy, Debug)]
pub struct Here {
    pub activation: u64,
    /// The bytes of stack in use with its frame on it.
    pub depth: u32,
    /// The number of its first object.
    pub first: u64,
    /// How many activations stand below it.
    pub level: usize,
    pub ghost small: { first < 2 ^ 63 },
}
