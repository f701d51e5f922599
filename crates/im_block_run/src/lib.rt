//! From a unit of block code to what it does: a plain interpreter, whose contract is the meaning of block code.
#![tactic(auto)]

mod calls;
mod code;
mod exits;
mod finish;
mod layouts;
mod lines;
mod places;
mod registers;
mod runs;
mod sets;
mod start;
mod state;
mod stop;
mod streams;
mod values;

pub use code::Setting;
pub use runs::run;
