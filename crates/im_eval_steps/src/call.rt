ghost use Rattle.std.specs.Prelude.{◌≡◌, ◌≤◌, ◌==◌, ℕ, List, []};
ghost use Rattle.im_typed.specs.Programs.{call_result, called, calls_of};
ghost use Rattle.im_typed.specs.Runs.{State, goes_on};
ghost use Rattle.im_eval_machine.specs.Settings.{AreLayoutsOf, setting_of};
ghost use Rattle.im_eval_machine.specs.Shown.{IsIn, shown_all, values};
ghost use Rattle.im_eval_machine.specs.declared.here.Here.{Here};
ghost use Rattle.im_eval_tasks.specs.Found.{flow};
ghost use Rattle.im_eval_tasks.specs.Stack.{Valued, in_activation, then_valued};
ghost use Rattle.im_eval_tasks.specs.Tasks.{calls_on};
ghost use Rattle.im_eval_tasks.specs.declared.tasks.Task.{Task};
ghost use Rattle.im_eval_steps.specs.Going.{Goes, follows, types_of};

use im_eval_machine::{Code, Found, Here, Machine, Stopped, enter, pay};
use im_eval_store::Value;
use im_eval_tasks::{Call, Caller, Ended, Next, Now, Operand, Task};
use im_store::{Number, Undefined};
use std::alloc::Global;

/// A function is entered, where its frame has room; its body is next.
pub fn enter_function<'p>(
    alloc: Global,
    code: Code<'p>,
    machine: &mut Machine<'p>,
    here: &mut Here,
    function: u32,
    arguments: &[Value],
) -> Result<Next<'p>, Stopped>
    requires { AreLayoutsOf code.prog.now code.layouts.now }
    ensures fuel { machine.new.fuel ≤ machine.old.fuel }
    ensures goes { (n : ℕ) (ts : List Task) (s : State) → IsIn machine.old s
        → Goes code.entry n here.new ts result machine.new (goes_on
        (called (setting_of code.entry) (calls_of (setting_of code.entry) n) n function
        (shown_all arguments.now) s)
        (λ vs. follows code.entry n here.old ts (Valued vs))) }
{
    let Some(func) = code.prog.funcs.get(function as usize) else {
        return Err(Stopped::Undefined(Undefined::MissingResult));
    };
    let depth = machine.depth;
    let inside = enter(alloc, code, machine, function, arguments)?;
    let caller = Caller {
        function,
        here: *here,
        depth,
    };
    *here = inside;
    Ok(Next::Before(Now::Execute(&func.body), Task::Leave(caller)))
}

/// A call whose arguments are there, for a unit of fuel.
fn call_function<'p>(
    alloc: Global,
    code: Code<'p>,
    machine: &mut Machine<'p>,
    here: &mut Here,
    call: Call<'p>,
) -> Result<Next<'p>, Stopped>
    requires laid_out { AreLayoutsOf code.prog.now code.layouts.now }
    requires ready { call.rest.now ≡ [] }
    ensures fuel { machine.new.fuel ≤ machine.old.fuel }
    ensures goes { (n : ℕ) (ts : List Task) (s : State) → IsIn machine.old s → s.fuel ≤ n
        → Goes code.entry n here.new ts result machine.new (goes_on
        (calls_on (types_of code.entry)
        (in_activation (types_of code.entry) (setting_of code.entry) n here.old) call.entry s)
        (λ vs. follows code.entry n here.old ts (Valued vs))) }
{
    pay(machine)?;
    enter_function(alloc, code, machine, here, call.function, &call.ready)
}

/// The next argument of a call, or the call.
pub fn next_argument<'p>(
    alloc: Global,
    code: Code<'p>,
    machine: &mut Machine<'p>,
    here: &mut Here,
    call: Call<'p>,
) -> Result<Next<'p>, Stopped>
    requires { AreLayoutsOf code.prog.now code.layouts.now }
    ensures fuel { machine.new.fuel ≤ machine.old.fuel }
    ensures goes { (n : ℕ) (ts : List Task) (s : State) → IsIn machine.old s → s.fuel ≤ n
        → Goes code.entry n here.new ts result machine.new (goes_on
        (calls_on (types_of code.entry)
        (in_activation (types_of code.entry) (setting_of code.entry) n here.old) call.entry s)
        (λ vs. follows code.entry n here.old ts (Valued vs))) }
{
    match call.rest.split_first() {
        None => call_function(alloc, code, machine, here, call),
        Some((first, rest)) => {
            let left = Call {
                function: call.function,
                ready: call.ready,
                rest,
            };
            Ok(Next::Before(Now::Evaluate(first), Task::Operand(Operand::Argument(left))))
        }
    }
}

/// What a call gives: what its function returned; at the brace 0 from `main`, and nothing from
/// another function (C11 5.1.2.2.3, 6.9.1).
pub fn result_of(main: u32, function: u32, ended: Ended) -> Found
    ensures { values result ≡ call_result (function == main) (flow ended) }
{
    match ended {
        Ended::Returned(found) => found,
        Ended::Next | Ended::Broke | Ended::Continued => {
            if function == main {
                Found::One(Value::Number(Number::ZERO))
            } else {
                Found::Nothing
            }
        }
    }
}
