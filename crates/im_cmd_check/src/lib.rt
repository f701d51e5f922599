//! From why a source is refused to a message that says where and why, sent to a sink.
#![tactic(auto)]

mod limit;
mod message;
mod number;
mod reading;
mod refused;
mod runs;
mod sentences;

pub use refused::send_source_message;
