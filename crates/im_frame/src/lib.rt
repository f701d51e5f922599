//! From a function to the layout of its frame: its return address, its slots, its objects.
#![tactic(auto)]

mod fault;
mod layout;

pub use fault::FrameFault;
pub use layout::{Layout, frame_bytes, lay_out};
