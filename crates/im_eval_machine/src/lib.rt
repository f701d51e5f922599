//! From a machine's state to the next one: what an evaluator works on, and its smallest steps.
#![tactic(auto)]

mod access;
mod activation;
mod change;
mod code;
mod found;
mod here;
mod initial;
mod layouts;
mod machine;
mod operator;
mod outcome;
mod source;
mod start;
mod stopped;
mod streams;

pub use access::{read_at, used, write_at};
pub use activation::{enter, leave};
pub use change::{before_change, change_by};
pub use code::{Code, Layout, Layouts};
pub use found::{Found, part_of};
pub use here::Here;
pub use initial::{clear, forget, given_offsets};
pub use layouts::layouts_of;
pub use machine::{Machine, member, pay};
pub use operator::{Last, changed, changed_kind, finished, number_of, small};
pub use outcome::{Outcome, Reason};
pub use source::read_for;
pub use start::machine_of;
pub use stopped::Stopped;
pub use streams::serve;
