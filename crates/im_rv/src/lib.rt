//! From words to steps: what each word stands for in RV32IM, and what one step does to registers and memory.
#![tactic(auto)]

mod arithmetic;
pub mod assembler;
mod code;
mod computation;
pub mod decode;
mod effect;
pub mod encode;
mod format;
mod instr;
mod laws;
mod operands;
mod rows;
pub mod step;
mod torn;
mod transfer;

pub use code::{Code, Cut, Line, Part, plain};
pub use effect::{Effect, Extension};
pub use format::Format;
pub use instr::{Instr, Op};
pub use laws::{
    bytes_stay_law, ends_calm_law, lines_apart_law, one_register_law, only_stores_law,
    rows_apart_law, rows_reached_law, torn_between_law, words_stay_law, zero_stays_law,
};
pub use step::{Regs, Went};
pub use torn::tear;
