ghost use Rattle.std.specs.Prelude.{◌≡◌, ℕ, IfOk};
ghost use Rattle.im_store.specs.Objects.{Store};
ghost use Rattle.im_store.specs.Outcomes as outcomes;
ghost use Rattle.im_typed.specs.Programs as programs;
ghost use Rattle.im_typed.specs.ProgramOf.{program_of};
ghost use Rattle.im_typed.specs.Runs.{Answer};
ghost use Rattle.im_typed.specs.Values.{Values};
ghost use Rattle.im_eval_store.specs.Living.{Holds};
ghost use Rattle.im_eval_machine.specs.Endings.{AreLive, EndLive, reason_number, told};
ghost use Rattle.im_eval_machine.specs.Settings.{HasKnownTypes, setting_of};
ghost use Rattle.im_eval_machine.specs.Shown.{Ends, Halts, values};

use crate::variables::variables;
use im_eval_machine::{Code, Found, Machine, Outcome, Reason, Stopped};
use im_eval_store::Value;
use im_num::NoMemory;
use std::alloc::Global;

/// The status that a program ends with, by what `main` gave.
fn status_of(found: &Found) -> i128
    ensures { result ≡ programs.status_of (values found.now) }
{
    match found.get(0) {
        Some(Value::Number(number)) => number.value,
        Some(_) | None => 0,
    }
}

/// An end, with the statics as they are then.
fn end_of(
    alloc: Global,
    code: Code,
    machine: Machine,
    reason: Reason,
    status: i128,
) -> Result<Outcome, NoMemory>
    requires { HasKnownTypes code.prog.now }
    ensures { IfOk result (λ outcome. (last : ℕ) (store : Store)
        → Holds machine.entry.memory last store
        → AreLive (program_of code.entry.prog.now).statics store → told outcome
        ≡ outcomes.End (reason_number reason) status machine.entry.output.items
        (outcomes.variables (program_of code.entry.prog.now).statics store)) }
{
    let variables = variables(alloc, &code.prog.types, &machine.memory, &code.prog.statics)?;
    Ok(Outcome::End {
        reason,
        status,
        output: machine.output,
        variables,
    })
}

/// What is told of a run that stopped.
fn halted(alloc: Global, code: Code, machine: Machine, why: Stopped) -> Result<Outcome, NoMemory>
    requires { HasKnownTypes code.prog.now }
    ensures { IfOk result (λ outcome. (answer : Answer Values) → Halts why machine.entry answer
        → EndLive (program_of code.entry.prog.now).statics answer
        → programs.outcome_of (setting_of code.entry) answer ≡ told outcome) }
{
    match why {
        Stopped::Undefined(why) => Ok(Outcome::Undefined(why)),
        Stopped::MoreFuel => Ok(Outcome::More {
            output: machine.output,
        }),
        Stopped::StackExhausted => end_of(alloc, code, machine, Reason::StackExhausted, 0),
        Stopped::OutOfMemory => Err(NoMemory::OutOfMemory),
    }
}

/// What is told of a run that ended or stopped.
pub fn conclude(
    alloc: Global,
    code: Code,
    machine: Machine,
    end: Result<Found, Stopped>,
) -> Result<Outcome, NoMemory>
    requires { HasKnownTypes code.prog.now }
    ensures { IfOk result (λ outcome. (answer : Answer Values)
        → Ends values end machine.entry answer
        → EndLive (program_of code.entry.prog.now).statics answer
        → programs.outcome_of (setting_of code.entry) answer ≡ told outcome) }
{
    match end {
        Ok(found) => end_of(alloc, code, machine, Reason::Returned, status_of(&found)),
        Err(why) => halted(alloc, code, machine, why),
    }
}
