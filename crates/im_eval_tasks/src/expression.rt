ghost use Rattle.std.specs.Prelude.{◌≡◌, ℕ, List};
ghost use Rattle.im_ctype.specs.Table.{Table};
ghost use Rattle.im_typed.specs.Meaning.{place_of, value_of};
ghost use Rattle.im_typed.specs.Programs.{Setting};
ghost use Rattle.im_typed.specs.Runs.{State};
ghost use Rattle.im_eval_tasks.specs.Stack.{in_activation, leads, then_placed, then_valued};
ghost use Rattle.im_eval_tasks.specs.Tasks.{expr_in, place_in};
ghost use Rattle.im_eval_tasks.specs.declared.tasks.Task.{Task};
ghost use Rattle.im_eval_machine.specs.declared.here.Here.{Here};

use crate::steps::{Next, Now};
use crate::tasks::{At, Call, Left, Operand, Task, Whole};
use im_eval_machine::{Found, Here, Last, small};
use im_eval_store::{ObjectName, Place, Value};
use im_typed as typed;
use im_typed::Expr;
use std::alloc::Global;

/// How the place that an expression designates is found.
pub fn begin_place<'p>(here: Here, place: &'p typed::Place) -> Next<'p>
    ensures { (types : Table) (g : Setting) (n : ℕ) (ts : List Task) (s : State)
        → leads types g n here ts result s ≡ then_placed types g n here ts
        (place_of (in_activation types g n here) (place_in types place.entry)) s }
{
    match place {
        typed::Place::Static(number) => Next::Just(Now::At(Value::Pointer(Place {
            object: ObjectName {
                activation: 0,
                depth: 0,
                number: *number as u64,
            },
            offset: 0,
            level: 0,
        }))),
        typed::Place::Local(number) => Next::Just(Now::At(Value::Pointer(Place {
            object: here.local(*number),
            offset: 0,
            level: here.level,
        }))),
        typed::Place::Target(pointer) => Next::Before(
            Now::Evaluate(pointer),
            Task::Operand(Operand::Target),
        ),
        typed::Place::Member(whole, offset) => Next::Before(
            Now::Locate(whole),
            Task::Member(*offset),
        ),
    }
}

/// How an expression begins: with the first of its operands, or with its value where it has none.
pub fn begin<'p>(alloc: Global, expr: &'p Expr) -> Next<'p>
    ensures { (types : Table) (g : Setting) (n : ℕ) (here : Here) (ts : List Task) (s : State)
        → leads types g n here ts result s ≡ then_valued types g n here ts
        (value_of (in_activation types g n here) (expr_in types expr.entry)) s }
{
    match expr {
        Expr::Number(_, value) => Next::Just(Now::Value(Found::One(Value::Number(small(*value))))),
        Expr::Null => Next::Just(Now::Value(Found::One(Value::Null))),
        Expr::Serve(service) => Next::Just(Now::Serve(*service)),
        Expr::Call(function, arguments) => Next::Just(Now::Arguments(Call {
            function: *function,
            ready: Vec::new(alloc),
            rest: arguments,
        })),
        Expr::Read(access, place) => Next::Before(Now::Locate(place), Task::At(At::Read(*access))),
        Expr::Address(place) => Next::Before(Now::Locate(place), Task::At(At::Address)),
        Expr::Assign(access, place, value) => {
            Next::Before(Now::Locate(place), Task::At(At::Assign(*access, value)))
        }
        Expr::Update { place, change, by } => {
            Next::Before(Now::Locate(place), Task::At(At::Update(*change, by)))
        }
        Expr::Increment { place, change, old } => {
            Next::Before(Now::Locate(place), Task::At(At::Increment(*change, *old)))
        }
        Expr::Convert(kind, operand) => {
            Next::Before(
                Now::Evaluate(operand),
                Task::Operand(Operand::Last(Last::Convert(*kind))),
            )
        }
        Expr::Unary(op, kind, operand) => {
            Next::Before(
                Now::Evaluate(operand),
                Task::Operand(Operand::Last(Last::Unary(*op, *kind))),
            )
        }
        Expr::Not(operand) => Next::Before(
            Now::Evaluate(operand),
            Task::Operand(Operand::Last(Last::Not)),
        ),
        Expr::ServeWith(service, operand) => Next::Before(
            Now::Evaluate(operand),
            Task::Operand(Operand::Serve(*service)),
        ),
        Expr::Comma(left, right) => {
            Next::Before(Now::Evaluate(left), Task::Whole(Whole::Comma(right)))
        }
        Expr::Discard(operand) => Next::Before(Now::Evaluate(operand), Task::Whole(Whole::Discard)),
        Expr::Part {
            from,
            access,
            whole,
        } => {
            let part = Whole::Part {
                from: *from,
                access: *access,
            };
            Next::Before(Now::Evaluate(whole), Task::Whole(part))
        }
        Expr::Binary(op, kind, left, right) => {
            let operator = Left::Binary(*op, *kind);
            Next::Before(
                Now::Evaluate(left),
                Task::Operand(Operand::Left(operator, right)),
            )
        }
        Expr::Move {
            size,
            back,
            pointer,
            by,
        } => {
            let operator = Left::Move {
                size: *size,
                back: *back,
            };
            Next::Before(
                Now::Evaluate(pointer),
                Task::Operand(Operand::Left(operator, by)),
            )
        }
        Expr::MoveBy { size, by, pointer } => {
            let operator = Left::MoveBy { size: *size };
            Next::Before(
                Now::Evaluate(by),
                Task::Operand(Operand::Left(operator, pointer)),
            )
        }
        Expr::Distance { size, left, right } => {
            let operator = Left::Distance { size: *size };
            Next::Before(
                Now::Evaluate(left),
                Task::Operand(Operand::Left(operator, right)),
            )
        }
        Expr::Compare(op, _, left, right) => Next::Before(
            Now::Evaluate(left),
            Task::Operand(Operand::Left(Left::Compare(*op), right)),
        ),
        Expr::And(left, right) => Next::Before(
            Now::Evaluate(left),
            Task::Operand(Operand::Left(Left::And, right)),
        ),
        Expr::Or(left, right) => Next::Before(
            Now::Evaluate(left),
            Task::Operand(Operand::Left(Left::Or, right)),
        ),
        Expr::Choose(test, first, second) => Next::Before(
            Now::Evaluate(test),
            Task::Operand(Operand::Choose(first, second)),
        ),
    }
}
