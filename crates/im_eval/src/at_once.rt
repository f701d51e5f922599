ghost use Rattle.std.specs.Prelude.{◌≡◌, ◌≤◌, ◌∷◌, ℕ, IfErr, List, Ok};
ghost use Rattle.im_typed.specs.Runs.{Answer, State};
ghost use Rattle.im_typed.specs.Values.{Values};
ghost use Rattle.im_eval_machine.specs.Settings.{AreLayoutsOf, setting_of};
ghost use Rattle.im_eval_machine.specs.Shown.{IsIn};
ghost use Rattle.im_eval_machine.specs.declared.code.Code.{Code};
ghost use Rattle.im_eval_machine.specs.declared.stopped.Stopped.TheVariants.{OutOfMemory};
ghost use Rattle.im_eval_tasks.specs.Stack.{pending, runs};
ghost use Rattle.im_eval_tasks.specs.declared.steps.Now.TheVariants as now;
ghost use Rattle.im_eval_tasks.specs.declared.tasks.Task.{Task};
ghost use Rattle.im_eval_tasks.specs.declared.tasks.Task.TheVariants as task;
ghost use Rattle.im_eval_steps.specs.Going.{Goes, types_of};
ghost use Rattle.im_eval.specs.Ahead.{LooksAhead, placed, valued};

use crate::resume::resume_value;
use crate::run::Run;
use im_eval_machine::{Code, Found, Here, Machine, Stopped};
use im_eval_steps::{Unseen, look, look_place, resume_at};
use im_eval_store::Value;
use im_eval_tasks::{At, Next, Now, Task, begin};
use im_typed::{Expr, Place};
use std::alloc::Global;

/// The place that is next, where a look finds it.
fn place_ahead(machine: &Machine, here: Here, place: &Place) -> Result<Option<Value>, Stopped>
    ensures ahead { (code : Code) (n : ℕ) (ts : List Task) (s : State) → IsIn machine.now s
        → LooksAhead placed code n here ts result machine.now s
        (runs (types_of code) (setting_of code) n here ts (now.Locate place.entry) s) }
    ensures spared { IfErr result (λ stop. stop ≡ OutOfMemory → ⊥) }
{
    match look_place(&machine.memory, here, place) {
        Ok(found) => Ok(Some(found)),
        Err(Unseen::Undefined(why)) => Err(Stopped::Undefined(why)),
        Err(Unseen::Elsewhere) => Ok(None),
    }
}

/// The value of the expression that is next, where a look gives it.
fn value_ahead(machine: &Machine, here: Here, expr: &Expr) -> Result<Option<Value>, Stopped>
    ensures ahead { (code : Code) (n : ℕ) (ts : List Task) (s : State) → IsIn machine.now s
        → LooksAhead valued code n here ts result machine.now s
        (runs (types_of code) (setting_of code) n here ts (now.Evaluate expr.entry) s) }
    ensures spared { IfErr result (λ stop. stop ≡ OutOfMemory → ⊥) }
{
    match look(&machine.memory, here, expr) {
        Ok(value) => Ok(Some(value)),
        Err(Unseen::Undefined(why)) => Err(Stopped::Undefined(why)),
        Err(Unseen::Elsewhere) => Ok(None),
    }
}

/// What is to be done at a place is done at once where a look finds it.
fn do_at<'p>(
    alloc: Global,
    code: Code<'p>,
    machine: &mut Machine<'p>,
    here: Here,
    place: &'p Place,
    at: At<'p>,
) -> Result<Next<'p>, Stopped>
    requires { AreLayoutsOf code.prog.now code.layouts.now }
    ensures fuel { machine.new.fuel ≤ machine.old.fuel }
    ensures goes { (n : ℕ) (ts : List Task) (s : State) → IsIn machine.old s
        → Goes code.entry n here ts result machine.new (runs (types_of code.entry)
        (setting_of code.entry) n here (task.At at.entry ∷ ts) (now.Locate place.entry) s) }
{
    match place_ahead(machine, here, place)? {
        Some(found) => resume_at(alloc, code, machine, at, found),
        None => Ok(Next::Before(Now::Locate(place), Task::At(at))),
    }
}

/// How an expression begins of which no look gave the value.
pub(crate) fn begin_tasks<'p>(
    alloc: Global,
    code: Code<'p>,
    machine: &mut Machine<'p>,
    here: Here,
    expr: &'p Expr,
) -> Result<Next<'p>, Stopped>
    requires { AreLayoutsOf code.prog.now code.layouts.now }
    ensures fuel { machine.new.fuel ≤ machine.old.fuel }
    ensures goes { (n : ℕ) (ts : List Task) (s : State) → IsIn machine.old s
        → Goes code.entry n here ts result machine.new (runs (types_of code.entry)
        (setting_of code.entry) n here ts (now.Evaluate expr.entry) s) }
{
    match begin(alloc, expr) {
        Next::Before(Now::Locate(place), Task::At(at)) => {
            do_at(alloc, code, machine, here, place, at)
        }
        other => Ok(other),
    }
}

/// An expression has its value at once where a look gives it.
fn evaluate<'p>(
    code: Code<'p>,
    machine: &Machine<'p>,
    here: Here,
    expr: &'p Expr,
) -> Result<Next<'p>, Stopped>
    ensures goes { (n : ℕ) (ts : List Task) (s : State) → IsIn machine.now s
        → Goes code.entry n here ts result machine.now (runs (types_of code.entry)
        (setting_of code.entry) n here ts (now.Evaluate expr.entry) s) }
    ensures spared { IfErr result (λ stop. stop ≡ OutOfMemory → ⊥) }
{
    match value_ahead(machine, here, expr)? {
        Some(value) => Ok(Next::Just(Now::Value(Found::One(value)))),
        None => Ok(Next::Just(Now::Evaluate(expr))),
    }
}

/// A task gets the value of an expression at once where a look gives it.
fn pass_value<'p>(
    alloc: Global,
    code: Code<'p>,
    machine: &mut Machine<'p>,
    here: &mut Here,
    expr: &'p Expr,
    task: Task<'p>,
) -> Result<Next<'p>, Stopped>
    requires { AreLayoutsOf code.prog.now code.layouts.now }
    ensures fuel { machine.new.fuel ≤ machine.old.fuel }
    ensures goes { (n : ℕ) (ts : List Task) (s : State) → IsIn machine.old s
        → Goes code.entry n here.new ts result machine.new (runs (types_of code.entry)
        (setting_of code.entry) n here.old (task.entry ∷ ts) (now.Evaluate expr.entry) s) }
{
    match value_ahead(machine, *here, expr)? {
        Some(value) => resume_value(alloc, code, machine, here, task, Found::One(value)),
        None => Ok(Next::Before(Now::Evaluate(expr), task)),
    }
}

/// What is next, where an expression that is next has its value at once.
fn hasten_now<'p>(
    code: Code<'p>,
    machine: &Machine<'p>,
    here: Here,
    now: Now<'p>,
) -> Result<Next<'p>, Stopped>
    ensures goes { (n : ℕ) (ts : List Task) (s : State) → IsIn machine.now s
        → Goes code.entry n here ts result machine.now (runs (types_of code.entry)
        (setting_of code.entry) n here ts now.entry s) }
    ensures spared { IfErr result (λ stop. stop ≡ OutOfMemory → ⊥) }
{
    match now {
        Now::Evaluate(expr) => evaluate(code, machine, here, expr),
        other => Ok(Next::Just(other)),
    }
}

/// The same of what is next before a task.
fn hasten_before<'p>(
    alloc: Global,
    code: Code<'p>,
    machine: &mut Machine<'p>,
    here: &mut Here,
    now: Now<'p>,
    task: Task<'p>,
) -> Result<Next<'p>, Stopped>
    requires { AreLayoutsOf code.prog.now code.layouts.now }
    ensures fuel { machine.new.fuel ≤ machine.old.fuel }
    ensures goes { (n : ℕ) (ts : List Task) (s : State) → IsIn machine.old s
        → Goes code.entry n here.new ts result machine.new (runs (types_of code.entry)
        (setting_of code.entry) n here.old (task.entry ∷ ts) now.entry s) }
{
    match now {
        Now::Evaluate(expr) => pass_value(alloc, code, machine, here, expr, task),
        other => Ok(Next::Before(other, task)),
    }
}

/// What follows a step, where an expression that is next has its value at once.
pub(crate) fn hasten<'p>(
    alloc: Global,
    code: Code<'p>,
    run: &mut Run<'p>,
    next: Next<'p>,
) -> Result<Next<'p>, Stopped>
    requires { AreLayoutsOf code.prog.now code.layouts.now }
    ensures fuel { run.new.machine.fuel ≤ run.old.machine.fuel }
    ensures goes { (n : ℕ) (r : Answer Values) → Goes code.entry n run.old.here
        (pending run.old.tasks.items) (Ok next.entry) run.old.machine r
        → Goes code.entry n run.new.here (pending run.new.tasks.items) result run.new.machine r }
{
    match next {
        Next::Just(now) => hasten_now(code, &run.machine, run.here, now),
        Next::Before(now, task) => {
            hasten_before(alloc, code, &mut run.machine, &mut run.here, now, task)
        }
    }
}
