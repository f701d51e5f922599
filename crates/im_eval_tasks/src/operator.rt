ghost use Rattle.std.specs.Prelude.{◌≡◌, ℕ, List};
ghost use Rattle.im_ctype.specs.Table.{Table};
ghost use Rattle.im_typed.specs.Programs.{Setting};
ghost use Rattle.im_typed.specs.Runs.{State};
ghost use Rattle.im_eval_store.specs.Shown.{shown};
ghost use Rattle.im_eval_tasks.specs.Stack.{Leads, in_activation, then_valued};
ghost use Rattle.im_eval_tasks.specs.Tasks.{lefts};
ghost use Rattle.im_eval_machine.specs.declared.here.Here.{Here};
ghost use Rattle.im_eval_tasks.specs.declared.tasks.Task.{Task};

use crate::steps::{Next, Now};
use crate::tasks::{Left, Operand, Task};
use im_eval_machine::{Found, Last, number_of};
use im_eval_store::Value;
use im_store::Undefined;
use im_typed::Expr;

/// How an operator goes on, once its left operand is there.
pub fn onward<'p>(left: Left, right: &'p Box<Expr>, value: Value) -> Result<Next<'p>, Undefined>
    ensures { (types : Table) (g : Setting) (n : ℕ) (here : Here) (ts : List Task) (s : State)
        → Leads types g n here ts result s (then_valued types g n here ts
        (lefts types (in_activation types g n here) left right.entry (shown value)) s) }
{
    match left {
        Left::Binary(op, kind) => match number_of(value) {
            Err(why) => Err(why),
            Ok(number) => Ok(Next::Before(
                Now::Evaluate(right),
                Task::Operand(Operand::Last(Last::Binary(op, kind, number))),
            )),
        },
        Left::Move { size, back } => {
            let last = Last::Move {
                size,
                back,
                pointer: value,
            };
            Ok(Next::Before(Now::Evaluate(right), Task::Operand(Operand::Last(last))))
        }
        Left::MoveBy { size } => match number_of(value) {
            Err(why) => Err(why),
            Ok(by) => Ok(Next::Before(
                Now::Evaluate(right),
                Task::Operand(Operand::Last(Last::MoveBy { size, by })),
            )),
        },
        Left::Distance { size } => {
            let last = Last::Distance { size, left: value };
            Ok(Next::Before(Now::Evaluate(right), Task::Operand(Operand::Last(last))))
        }
        Left::Compare(op) => {
            let last = Last::Compare(op, value);
            Ok(Next::Before(Now::Evaluate(right), Task::Operand(Operand::Last(last))))
        }
        Left::And => {
            if value.holds() {
                Ok(Next::Before(
                    Now::Evaluate(right),
                    Task::Operand(Operand::Last(Last::Holds)),
                ))
            } else {
                Ok(Next::Just(Now::Value(Found::One(Value::truth(false)))))
            }
        }
        Left::Or => {
            if value.holds() {
                Ok(Next::Just(Now::Value(Found::One(Value::truth(true)))))
            } else {
                Ok(Next::Before(
                    Now::Evaluate(right),
                    Task::Operand(Operand::Last(Last::Holds)),
                ))
            }
        }
    }
}
