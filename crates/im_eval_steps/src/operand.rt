ghost use Rattle.std.specs.Prelude.{◌≡◌, ◌≤◌, ◌++◌, [], ◌∷◌, ℕ, List, IfOk};
ghost use Rattle.im_typed.specs.Runs.{State};
ghost use Rattle.im_eval_store.specs.Shown.{shown};
ghost use Rattle.im_eval_machine.specs.Settings.{setting_of};
ghost use Rattle.im_eval_machine.specs.Shown.{IsIn};
ghost use Rattle.im_eval_machine.specs.declared.here.Here.{Here};
ghost use Rattle.im_eval_tasks.specs.Stack.{operand_goes};
ghost use Rattle.im_eval_tasks.specs.declared.tasks.Task.{Task};
ghost use Rattle.im_eval_steps.specs.Going.{Goes, follows, types_of};

use crate::change::change_to;
use im_eval_machine::{Code, Found, Machine, Stopped, finished, number_of, serve};
use im_eval_store::Value;
use im_eval_tasks::{Call, Next, Now, Operand, onward};
use im_num::NoMemory;

/// A call takes the value of its next argument.
fn take_argument<'p>(call: Call<'p>, value: Value) -> Result<Call<'p>, NoMemory>
    ensures ready { IfOk result (λ more. more.ready.items
        ≡ call.entry.ready.items ++ value ∷ []) }
    ensures rest { IfOk result (λ more. more.rest ≡ call.entry.rest) }
    ensures function { IfOk result (λ more. more.function ≡ call.entry.function) }
{
    let Call {
        function,
        mut ready,
        rest,
    } = call;
    ready.push(value)?;
    Ok(Call {
        function,
        ready,
        rest,
    })
}

/// An operator takes the value of an operand.
pub fn resume_operand<'p>(
    code: Code<'p>,
    machine: &mut Machine<'p>,
    operand: Operand<'p>,
    value: Value,
) -> Result<Next<'p>, Stopped>
    ensures fuel { machine.new.fuel ≤ machine.old.fuel }
    ensures goes { (n : ℕ) (here : Here) (ts : List Task) (s : State) → IsIn machine.old s
        → Goes code.entry n here ts result machine.new (operand_goes (types_of code.entry)
        (setting_of code.entry) n here operand.entry (follows code.entry n here ts)
        (shown value) s) }
{
    match operand {
        Operand::Last(last) => {
            let result = finished(&machine.memory, last, value)?;
            Ok(Next::Just(Now::Value(Found::One(result))))
        }
        Operand::Left(left, right) => Ok(onward(left, right, value)?),
        Operand::Choose(first, second) => {
            if value.holds() {
                Ok(Next::Just(Now::Evaluate(first)))
            } else {
                Ok(Next::Just(Now::Evaluate(second)))
            }
        }
        Operand::Serve(service) => {
            let number = number_of(value)?;
            let given = serve(machine, code.capacity, service, number)?;
            Ok(Next::Just(Now::Value(Found::One(Value::Number(given)))))
        }
        Operand::Change {
            place,
            change,
            before,
        } => {
            let after = change_to(machine, change, place, before, value)?;
            Ok(Next::Just(Now::Value(Found::One(after))))
        }
        Operand::Target => Ok(Next::Just(Now::At(value))),
        Operand::Argument(call) => Ok(Next::Just(Now::Arguments(take_argument(call, value)?))),
    }
}
