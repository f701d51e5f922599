/// What an image is built with.
#[derive(Clone, Copy, PartialEq, Eq, Debug)]
pub struct Options {
    /// Bytes of stack, from 256 on.
    pub stack: u32,
    /// The output's capacity in bytes.
    pub out_cap: u32,
    /// The longest gap that is asked for, in instructions, from 160 on.
    pub max_gap: Option<u32>,
}
