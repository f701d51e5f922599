ghost use Rattle.std.specs.Prelude.{◌≡◌, ◌≤◌, ℕ};
ghost use Rattle.im_typed.specs.Runs.{Answer, State};
ghost use Rattle.im_typed.specs.Values.{Values};
ghost use Rattle.im_eval_machine.specs.Settings.{AreLayoutsOf, setting_of};
ghost use Rattle.im_eval_machine.specs.Shown.{IsIn};
ghost use Rattle.im_eval_machine.specs.declared.code.Code.{Code};
ghost use Rattle.im_eval_machine.specs.declared.machine.Machine.{Machine};
ghost use Rattle.im_eval_tasks.specs.Stack.{pending, runs};
ghost use Rattle.im_eval_steps.specs.Going.{Goes, GoesNow, types_of};

use crate::at_once::{begin_tasks, hasten};
use crate::resume::{resume_ended, resume_place, resume_value};
use crate::run::Run;
use im_eval_machine::{Code, Found, Stopped, forget, pay, serve};
use im_eval_steps::{next_argument, next_piece};
use im_eval_store::Value;
use im_eval_tasks::{
    Ended, Next, Now, Rest, Task, Use, begin_place, begin_statement, next_statement,
};
use im_store::Number;
use std::alloc::Global;

/// What follows one step; a call, a service and the body of a loop take a unit of fuel.
fn next_of<'p>(
    alloc: Global,
    code: Code<'p>,
    run: &mut Run<'p>,
    now: Now<'p>,
) -> Result<Next<'p>, Stopped>
    requires { AreLayoutsOf code.prog.now code.layouts.now }
    ensures fuel { run.new.machine.fuel ≤ run.old.machine.fuel }
    ensures goes { (n : ℕ) (s : State) → IsIn run.old.machine s → s.fuel ≤ n
        → Goes code.entry n run.new.here (pending run.new.tasks.items) result run.new.machine
        (runs (types_of code.entry) (setting_of code.entry) n run.old.here
        (pending run.old.tasks.items) now.entry s) }
{
    match now {
        Now::Evaluate(expr) => begin_tasks(alloc, code, &mut run.machine, run.here, expr),
        Now::Locate(place) => Ok(begin_place(run.here, place)),
        Now::Arguments(call) => next_argument(alloc, code, &mut run.machine, &mut run.here, call),
        Now::Serve(service) => {
            let number = serve(&mut run.machine, code.capacity, service, Number::ZERO)?;
            Ok(Next::Just(Now::Value(Found::One(Value::Number(number)))))
        }
        Now::Execute(statement) => Ok(begin_statement(statement)),
        Now::Forget(local) => {
            forget(&mut run.machine, run.here, local);
            Ok(Next::Just(Now::Ended(Ended::Next)))
        }
        Now::Statements(statements) => Ok(next_statement(statements)),
        Now::Pieces(left) => next_piece(alloc, code, &mut run.machine, run.here, left),
        Now::Turn(turns) => {
            Ok(Next::Before(Now::Evaluate(turns.test), Task::Use(Use::Turn(turns))))
        }
        Now::Enter(turns) => {
            pay(&mut run.machine)?;
            Ok(Next::Before(Now::Execute(turns.body), Task::Rest(Rest::Body(turns))))
        }
        Now::Value(found) => match run.tasks.pop() {
            None => Ok(Next::Just(Now::Value(found))),
            Some(task) => {
                resume_value(alloc, code, &mut run.machine, &mut run.here, task, found)
            }
        },
        Now::At(place) => match run.tasks.pop() {
            None => Ok(Next::Just(Now::Value(Found::Nothing))),
            Some(task) => {
                resume_place(alloc, code, &mut run.machine, &mut run.here, &task, place)
            }
        },
        Now::Ended(ended) => match run.tasks.pop() {
            None => Ok(Next::Just(Now::Value(Found::Nothing))),
            Some(task) => { Ok(resume_ended(code, &mut run.machine, &mut run.here, &task, ended)) }
        },
    }
}

/// One step, with the task that it leaves put on the stack.
pub(crate) fn step<'p>(
    alloc: Global,
    code: Code<'p>,
    run: &mut Run<'p>,
    now: Now<'p>,
) -> Result<Now<'p>, Stopped>
    requires { AreLayoutsOf code.prog.now code.layouts.now }
    ensures fuel { run.new.machine.fuel ≤ run.old.machine.fuel }
    ensures goes { (n : ℕ) (s : State) → IsIn run.old.machine s → s.fuel ≤ n
        → GoesNow code.entry n run.new.here (pending run.new.tasks.items) result run.new.machine
        (runs (types_of code.entry) (setting_of code.entry) n run.old.here
        (pending run.old.tasks.items) now.entry s) }
{
    let next = next_of(alloc, code, run, now)?;
    let hastened = hasten(alloc, code, run, next)?;
    push_next(run, hastened)
}

/// The task that a step leaves is put on the stack.
pub(crate) fn push_next<'p>(run: &mut Run<'p>, next: Next<'p>) -> Result<Now<'p>, Stopped>
    ensures machine { run.new.machine ≡ run.old.machine }
    ensures goes { (code : Code) (n : ℕ) (m : Machine) (r : Answer Values)
        → Goes code n run.old.here (pending run.old.tasks.items) (Ok next.entry) m r
        → GoesNow code n run.new.here (pending run.new.tasks.items) result m r }
{
    match next {
        Next::Just(now) => Ok(now),
        Next::Before(now, task) => {
            run.tasks.push(task)?;
            Ok(now)
        }
    }
}
