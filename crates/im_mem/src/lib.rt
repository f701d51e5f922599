//! Memory of 5 MiB and its map; it is read and written by aligned accesses of 1, 2 or 4 bytes.
#![tactic(auto)]

mod flat;
mod map;
mod memory;

pub use flat::FlatMem;
pub use map::{
    BUFFER0_START, BUFFER1_START, CODE_CAPACITY, CODE_START, IN_LEN, IN_POS, INDEX, INPUT_CAPACITY,
    INPUT_START, MEMORY_SIZE, OUT_CAP, OUT_LEN0, OUT_LEN1, OUT_SEL, OUTPUT_CAPACITY, OUTPUT_START,
    REASON, STACK_CAPACITY, STACK_END, STACK_LIM, STATICS_CAPACITY, STATICS_START, STATUS,
};
pub use memory::Memory;
