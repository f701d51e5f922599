ghost use Rattle.std.specs.Prelude.{◌≡◌, ◌≤◌, ℕ, IfErr, List};
ghost use Rattle.im_typed.specs.Runs.{State};
ghost use Rattle.im_eval_machine.specs.Settings.{AreLayoutsOf, setting_of};
ghost use Rattle.im_eval_machine.specs.Shown.{IsIn, values};
ghost use Rattle.im_eval_machine.specs.declared.here.Here.{Here};
ghost use Rattle.im_eval_machine.specs.declared.stopped.Stopped.TheVariants.{OutOfMemory};
ghost use Rattle.im_eval_tasks.specs.Stack.{value_goes};
ghost use Rattle.im_eval_tasks.specs.declared.tasks.Task.{Task};
ghost use Rattle.im_eval_tasks.specs.declared.tasks.Task.TheVariants as task;
ghost use Rattle.im_eval_steps.specs.Going.{Goes, follows, types_of};

use crate::initialiser::store_piece;
use im_eval_machine::{Code, Found, Here, Machine, Stopped, number_of, used};
use im_eval_tasks::{Ended, Next, Now, Use, enter_switch};

/// A statement goes on from the value of its expression.
pub fn resume_use<'p>(
    code: Code<'p>,
    machine: &mut Machine<'p>,
    here: Here,
    usage: Use<'p>,
    found: Found,
) -> Result<Next<'p>, Stopped>
    requires { AreLayoutsOf code.prog.now code.layouts.now }
    ensures fuel { machine.new.fuel ≤ machine.old.fuel }
    ensures goes { (n : ℕ) (ts : List Task) (s : State) → IsIn machine.old s
        → Goes code.entry n here ts result machine.new (value_goes (types_of code.entry)
        (setting_of code.entry) n here (task.Use usage.entry) (follows code.entry n here ts)
        (values found) s) }
    ensures spared { IfErr result (λ stop. stop ≡ OutOfMemory → ⊥) }
{
    match usage {
        Use::Drop => Ok(Next::Just(Now::Ended(Ended::Next))),
        Use::Again(turns) => Ok(Next::Just(Now::Turn(turns))),
        Use::Piece(left) => store_piece(code, machine, here, left, &found),
        Use::Return => {
            let value = used(machine, &found)?;
            Ok(Next::Just(Now::Ended(Ended::Returned(Found::One(value)))))
        }
        Use::Branch(first, second) => {
            let value = used(machine, &found)?;
            if value.holds() {
                Ok(Next::Just(Now::Execute(first)))
            } else {
                Ok(Next::Just(Now::Execute(second)))
            }
        }
        Use::Turn(turns) => {
            let value = used(machine, &found)?;
            if value.holds() {
                Ok(Next::Just(Now::Enter(turns)))
            } else {
                Ok(Next::Just(Now::Ended(Ended::Next)))
            }
        }
        Use::Enter(switch) => {
            let value = used(machine, &found)?;
            let number = number_of(value)?;
            Ok(enter_switch(switch, number))
        }
    }
}
