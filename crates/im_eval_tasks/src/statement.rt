ghost use Rattle.std.specs.Prelude.{◌≡◌, ◌≤◌, ℕ, List};
ghost use Rattle.im_ctype.specs.Table.{Table};
ghost use Rattle.im_typed.specs.Meaning.{does};
ghost use Rattle.im_typed.specs.Programs.{Setting};
ghost use Rattle.im_typed.specs.Runs.{State};
ghost use Rattle.im_eval_tasks.specs.Found.{flow};
ghost use Rattle.im_eval_tasks.specs.Stack.{in_activation, leads, then_flowed};
ghost use Rattle.im_eval_tasks.specs.Tasks.{does_left, ends_turn, goes_after, stmt_in};
ghost use Rattle.im_eval_machine.specs.declared.here.Here.{Here};
ghost use Rattle.im_eval_tasks.specs.declared.tasks.Task.{Task};

use crate::completion::Ended;
use crate::steps::{Next, Now};
use crate::tasks::{Initialiser, Loop, Rest, Statements, Switch, Task, Use};
use im_eval_machine::Found;
use im_typed::Stmt;

/// How a statement begins.
pub fn begin_statement<'p>(statement: &'p Stmt) -> Next<'p>
    ensures { (types : Table) (g : Setting) (n : ℕ) (here : Here) (ts : List Task) (s : State)
        → leads types g n here ts result s ≡ then_flowed types g n here ts
        (does (in_activation types g n here) n (stmt_in types statement.entry)) s }
{
    match statement {
        Stmt::Expr(value) => Next::Before(Now::Evaluate(value), Task::Use(Use::Drop)),
        Stmt::Initialise { local, pieces, .. } => Next::Just(Now::Pieces(Initialiser {
            local: *local,
            pieces,
            next: 0,
        })),
        Stmt::Block(block) => Next::Just(Now::Statements(Statements { block, next: 0 })),
        Stmt::If(test, first, second) => {
            Next::Before(Now::Evaluate(test), Task::Use(Use::Branch(first, second)))
        }
        Stmt::Switch {
            value,
            cases,
            otherwise,
            block,
        } => {
            let switch = Switch {
                cases,
                otherwise: *otherwise,
                block,
            };
            Next::Before(Now::Evaluate(value), Task::Use(Use::Enter(switch)))
        }
        Stmt::Return(result) => match result {
            Some(value) => Next::Before(Now::Evaluate(value), Task::Use(Use::Return)),
            None => Next::Just(Now::Ended(Ended::Returned(Found::Nothing))),
        },
        Stmt::Break => Next::Just(Now::Ended(Ended::Broke)),
        Stmt::Continue => Next::Just(Now::Ended(Ended::Continued)),
        Stmt::Forget(local) => Next::Just(Now::Forget(*local)),
        Stmt::While(test, body) => Next::Just(Now::Turn(Loop {
            test,
            step: None,
            body,
        })),
        Stmt::DoWhile(body, test) => Next::Just(Now::Enter(Loop {
            test,
            step: None,
            body,
        })),
        Stmt::For {
            first,
            test,
            step,
            body,
        } => {
            let turns = Loop {
                test,
                step: Some(step),
                body,
            };
            Next::Before(Now::Execute(first), Task::Rest(Rest::First(turns)))
        }
    }
}

/// How a statement goes on, once a statement in it ended.
pub fn go_after<'p>(rest: Rest<'p>, ended: Ended) -> Next<'p>
    ensures { (types : Table) (g : Setting) (n : ℕ) (here : Here) (ts : List Task) (s : State)
        → leads types g n here ts result s ≡ then_flowed types g n here ts
        (goes_after types (in_activation types g n here) n rest.entry (flow ended)) s }
{
    match rest {
        Rest::Statements(statements) => match ended {
            Ended::Next => Next::Just(Now::Statements(statements)),
            other => Next::Just(Now::Ended(other)),
        },
        Rest::First(turns) => match ended {
            Ended::Next => Next::Just(Now::Turn(turns)),
            other => Next::Just(Now::Ended(other)),
        },
        Rest::Body(turns) => end_turn(turns, ended),
        Rest::Switch => match ended {
            Ended::Broke => Next::Just(Now::Ended(Ended::Next)),
            other => Next::Just(Now::Ended(other)),
        },
    }
}

/// How a loop goes on behind its body.
fn end_turn<'p>(turns: Loop<'p>, ended: Ended) -> Next<'p>
    ensures { (types : Table) (g : Setting) (n : ℕ) (here : Here) (ts : List Task) (s : State)
        → leads types g n here ts result s ≡ then_flowed types g n here ts
        (ends_turn types (in_activation types g n here) n turns.entry (flow ended)) s }
{
    match ended {
        Ended::Next | Ended::Continued => match turns.step {
            None => Next::Just(Now::Turn(turns)),
            Some(step) => Next::Before(Now::Evaluate(step), Task::Use(Use::Again(turns))),
        },
        Ended::Broke => Next::Just(Now::Ended(Ended::Next)),
        Ended::Returned(found) => Next::Just(Now::Ended(Ended::Returned(found))),
    }
}

/// The statements of a block: the first one, then the others.
pub fn next_statement<'p>(left: Statements<'p>) -> Next<'p>
    ensures { (types : Table) (g : Setting) (n : ℕ) (here : Here) (ts : List Task) (s : State)
        → leads types g n here ts result s ≡ then_flowed types g n here ts
        (does_left types (in_activation types g n here) n left.entry) s }
{
    match left.block.get(left.next) {
        None => Next::Just(Now::Ended(Ended::Next)),
        Some(first) => {
            let rest = Statements {
                block: left.block,
                next: left.next + 1,
            };
            Next::Before(Now::Execute(first), Task::Rest(Rest::Statements(rest)))
        }
    }
}
