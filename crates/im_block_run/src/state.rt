use im_block::{Exit, Line};
use im_eval_store::{Memory, Value};

/// An activation at work.
#[derive(Drop)]
pub(crate) struct Frame<'u> {
    /// The number of its function in the unit.
    pub function: u32,
    /// What is left of its block.
    pub lines: &'u [Line],
    pub exit: Exit,
    /// Activations are numbered from 1 as they begin.
    pub number: u64,
    /// The bytes of stack in use with its frame on it.
    pub depth: u32,
    /// By their numbers; those behind the last one have no value.
    pub registers: Vec<Value>,
    /// The register that takes the result it waits for.
    pub to: u32,
}

/// What a run works on.
#[derive(Drop)]
pub(crate) struct State<'u> {
    pub frame: Frame<'u>,
    /// The activations that wait, the one to which the run returns first last.
    pub callers: Vec<Frame<'u>>,
    pub memory: Memory<'u>,
    /// How many activations began so far.
    pub begun: u64,
    /// The input that is left.
    pub input: &'u [u8],
    pub output: Vec<u8>,
    pub fuel: u64,
}
