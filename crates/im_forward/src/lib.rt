//! From block code to block code whose scalar locals are registers: copies of registers are forwarded, and with promotion before it that is the pass of registers.
#![tactic(auto)]

mod copies;
mod dead;
mod dying;
mod forwarding;
mod laws;
mod registers;
mod sources;
mod straight;
mod values;

pub use forwarding::forward;
pub use laws::{
    cost_law, formed_law, forward_law, ordered_law, placeable_law, registers_law, rest_law,
    uncut_law, written_law,
};
pub use registers::in_registers;
