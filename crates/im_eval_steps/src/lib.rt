//! From a task and what came for it to what is done next; an expression without a call is looked at, with no task for its operands.
#![tactic(auto)]

mod call;
mod change;
mod initialiser;
mod looking;
mod operand;
mod operators;
mod parts;
mod place;
mod pointers;
mod unseen;
mod usage;
mod whole;

pub use call::{enter_function, next_argument, result_of};
pub use initialiser::next_piece;
pub use looking::{look, look_place};
pub use operand::resume_operand;
pub use place::{resume_at, resume_member};
pub use unseen::Unseen;
pub use usage::resume_use;
pub use whole::resume_whole;
