ghost use Rattle.std.specs.Prelude.{◌≡◌, ℕ, List};
ghost use Rattle.im_ctype.specs.Table.{Table};
ghost use Rattle.im_typed.specs.Programs.{Setting};
ghost use Rattle.im_typed.specs.Runs.{State};
ghost use Rattle.im_eval_store.specs.Shown.{shown};
ghost use Rattle.im_eval_machine.specs.declared.here.Here.{Here};
ghost use Rattle.im_eval_tasks.specs.Stack.{in_activation, leads, then_valued};
ghost use Rattle.im_eval_tasks.specs.Tasks.{Reads, ats, evaluates_for, expr_in};
ghost use Rattle.im_eval_tasks.specs.declared.tasks.At.TheVariants as at;
ghost use Rattle.im_eval_tasks.specs.declared.tasks.Task.{Task};

use crate::steps::{Next, Now};
use crate::tasks::{At, Task, Whole};
use im_eval_store::Value;
use im_typed::{Access, Expr, Place};

/// How an assignment goes on, once its target is there: of a struct that is read the place comes,
/// of anything else the value (C11 6.5.16.1).
pub fn begin_store<'p>(access: Access, target: Value, value: &'p Box<Expr>) -> Next<'p>
    ensures { (types : Table) (g : Setting) (n : ℕ) (here : Here) (ts : List Task) (s : State)
        → leads types g n here ts result s ≡ then_valued types g n here ts
        (ats types (in_activation types g n here) (at.Assign access value.entry) (shown target))
        s }
{
    match access {
        Access::Scalar(_) => evaluate_for(access, target, value),
        Access::Struct { .. } => match read_place(value) {
            None => evaluate_for(access, target, value),
            Some(from) => {
                Next::Before(Now::Locate(from), Task::At(At::Source { access, target }))
            }
        },
    }
}

/// The place that an expression reads, if it is the value of one.
fn read_place<'p>(expr: &'p Expr) -> Option<&'p Place>
    ensures { (types : Table) → Reads types (expr_in types expr.entry) result }
{
    match expr {
        Expr::Read(_, place) => Some(place),
        _ => None,
    }
}

/// A value is evaluated, and then stored at the target.
fn evaluate_for<'p>(access: Access, target: Value, value: &'p Expr) -> Next<'p>
    ensures { (types : Table) (g : Setting) (n : ℕ) (here : Here) (ts : List Task) (s : State)
        → leads types g n here ts result s ≡ then_valued types g n here ts
        (evaluates_for types (in_activation types g n here) access (shown target)
        (expr_in types value.entry)) s }
{
    let store = Whole::Store {
        access,
        place: target,
    };
    Next::Before(Now::Evaluate(value), Task::Whole(store))
}
