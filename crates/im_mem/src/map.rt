/// Bytes of memory: 5 MiB.
pub const MEMORY_SIZE: u32 = 0x50_0000;

/// The word that says which register buffer is live: 0 or 1.
pub const INDEX: u32 = 0x000;

/// The word that holds what the program returned, a signed number.
pub const STATUS: u32 = 0x004;

/// The word that is 1 where the stack was exhausted.
pub const REASON: u32 = 0x008;

/// The output's length in bytes, where OUT_SEL is 0.
pub const OUT_LEN0: u32 = 0x00C;

/// The output's capacity in bytes.
pub const OUT_CAP: u32 = 0x010;

/// The input's length in bytes.
pub const IN_LEN: u32 = 0x014;

/// How many bytes of the input were read.
pub const IN_POS: u32 = 0x018;

/// The lowest address of the stack.
pub const STACK_LIM: u32 = 0x01C;

/// The output's length in bytes, where OUT_SEL isn't 0.
pub const OUT_LEN1: u32 = 0x020;

/// The byte that says which of the two lengths holds.
pub const OUT_SEL: u32 = 0x024;

/// Register buffer 0, of 32 words: word 0 is a place in the code, word i is register xi.
pub const BUFFER0_START: u32 = 0x080;

/// Register buffer 1, alike.
pub const BUFFER1_START: u32 = 0x100;

/// The first address of the code.
pub const CODE_START: u32 = 0x1000;

/// Bytes of code that memory has room for.
pub const CODE_CAPACITY: u32 = 0xF_F000;

/// The first address of the statics.
pub const STATICS_START: u32 = 0x10_0000;

/// Bytes of statics that memory has room for.
pub const STATICS_CAPACITY: u32 = 0x10_0000;

/// The address behind the stack, which grows down from here.
pub const STACK_END: u32 = 0x30_0000;

/// Bytes of stack that memory has room for.
pub const STACK_CAPACITY: u32 = 0x10_0000;

/// The first address of the input.
pub const INPUT_START: u32 = 0x30_0000;

/// Bytes of input that memory has room for.
pub const INPUT_CAPACITY: u32 = 0x10_0000;

/// The first address of the output.
pub const OUTPUT_START: u32 = 0x40_0000;

/// Bytes of output that memory has room for.
pub const OUTPUT_CAPACITY: u32 = 0x10_0000;
