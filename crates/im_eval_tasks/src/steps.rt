use crate::completion::Ended;
use crate::tasks::{Call, Initialiser, Loop, Statements, Task};
use im_eval_machine::Found;
use im_eval_store::Value;
use im_serve::Service;
use im_typed::{Expr, Place, Stmt};

/// What is done next.
#[derive(Drop)]
pub enum Now<'p> {
    Evaluate(&'p Expr),
    Locate(&'p Place),
    /// The arguments of a call that are left, then the call.
    Arguments(Call<'p>),
    /// A service that has no parameter.
    Serve(Service),
    Execute(&'p Stmt),
    /// A variable loses its value.
    Forget(u32),
    Statements(Statements<'p>),
    /// The pieces of an initialiser that are left.
    Pieces(Initialiser<'p>),
    /// The next turn of a loop, from its test on.
    Turn(Loop<'p>),
    /// The body of a loop, for a unit of fuel.
    Enter(Loop<'p>),
    /// The value of an expression goes to the next task.
    Value(Found),
    /// A place goes to the next task.
    At(Value),
    /// The end of a statement goes to the next task.
    Ended(Ended),
}

/// What is done next, and the task that then has its turn.
#[derive(Drop)]
pub enum Next<'p> {
    Just(Now<'p>),
    Before(Now<'p>, Task<'p>),
}
