//! What holds of all tasks. Each law is a function with an empty body, whose contract says it.
ghost use Rattle.im_eval_tasks.specs.Laws.{CallLaw, SmallViewLaw, TurnLaw};

/// A well-typed program is its own small view: its numbers have at most 64 bits.
pub fn small_view_law()
    ensures { SmallViewLaw }
{}

/// A loop goes on with its test, under the same bound of its turns, where that is at least the
/// fuel.
pub fn turn_law()
    ensures { TurnLaw }
{}

/// A call takes a unit of fuel and goes on with its function, under the same bound of calls, where
/// that is at least the fuel.
pub fn call_law()
    ensures { CallLaw }
{}
