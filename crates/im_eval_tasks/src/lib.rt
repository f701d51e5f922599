//! From an expression or a statement to what is done first: the tasks of a run.
#![tactic(auto)]

mod completion;
mod expression;
mod labels;
mod laws;
mod operator;
mod statement;
mod steps;
mod store;
mod tasks;

pub use completion::Ended;
pub use expression::{begin, begin_place};
pub use labels::enter_switch;
pub use laws::{call_law, small_view_law, turn_law};
pub use operator::onward;
pub use statement::{begin_statement, go_after, next_statement};
pub use steps::{Next, Now};
pub use store::begin_store;
pub use tasks::{
    At, Call, Caller, Initialiser, Left, Loop, Operand, Rest, Statements, Switch, Task, Use, Whole,
};
