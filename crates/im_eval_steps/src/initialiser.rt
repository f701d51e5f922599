ghost use Rattle.std.specs.Prelude.{◌≡◌, ◌≤◌, ℕ, List, drop, map, IfErr, IfOk};
ghost use Rattle.im_typed.specs.Meaning.{change_store, cleared, given_offsets};
ghost use Rattle.im_typed.specs.Runs.{State, goes_on};
ghost use Rattle.im_eval_machine.specs.Activations.{local_in};
ghost use Rattle.im_eval_machine.specs.Settings.{AreLayoutsOf, setting_of};
ghost use Rattle.im_eval_machine.specs.Shown.{IsIn, IsStep, nothing, values};
ghost use Rattle.im_eval_machine.specs.declared.here.Here.{Here};
ghost use Rattle.im_eval_machine.specs.declared.stopped.Stopped.TheVariants.{OutOfMemory};
ghost use Rattle.im_eval_tasks.specs.Stack.{Flowed, in_activation, runs};
ghost use Rattle.im_eval_tasks.specs.Tasks.{piece_in, takes_piece};
ghost use Rattle.im_eval_tasks.specs.declared.steps.Now.TheVariants as now;
ghost use Rattle.im_eval_tasks.specs.declared.tasks.Task.{Task};
ghost use Rattle.im_eval_steps.specs.Going.{Goes, follows, types_of};

use im_eval_machine::{Code, Found, Here, Machine, Stopped, clear, given_offsets, used, write_at};
use im_eval_store::{Place, Value};
use im_eval_tasks::{Ended, Initialiser, Next, Now, Task, Use};
use im_num::NoMemory;
use std::alloc::Global;

/// The value of the first piece that is left is stored in its object, and the next piece is next.
pub(crate) fn store_piece<'p>(
    code: Code<'p>,
    machine: &mut Machine<'p>,
    here: Here,
    left: Initialiser<'p>,
    found: &Found,
) -> Result<Next<'p>, Stopped>
    requires { AreLayoutsOf code.prog.now code.layouts.now }
    ensures fuel { machine.new.fuel ≤ machine.old.fuel }
    ensures goes { (n : ℕ) (ts : List Task) (s : State) → IsIn machine.old s
        → Goes code.entry n here ts result machine.new (goes_on
        (takes_piece (types_of code.entry)
        (in_activation (types_of code.entry) (setting_of code.entry) n here)
        left.entry.local left.entry.pieces.now.items
        (drop left.entry.next left.entry.pieces.now.items) (values found.now) s)
        (λ f. follows code.entry n here ts (Flowed f))) }
    ensures spared { IfErr result (λ stop. stop ≡ OutOfMemory → ⊥) }
{
    let Some(piece) = left.pieces.get(left.next) else {
        return Ok(Next::Just(Now::Pieces(left)));
    };
    let place = Value::Pointer(Place {
        object: here.local(left.local),
        offset: piece.offset,
        level: here.level,
    });
    used(machine, found)?;
    write_at(code, machine, piece.access, place, found)?;
    Ok(Next::Just(Now::Pieces(Initialiser {
        local: left.local,
        pieces: left.pieces,
        next: left.next + 1,
    })))
}

/// The cells without an expression become zero or null (C11 6.7.9p21).
fn clear_others<'p>(
    alloc: Global,
    code: Code<'p>,
    machine: &mut Machine<'p>,
    here: Here,
    left: Initialiser<'p>,
) -> Result<(), NoMemory>
    requires { AreLayoutsOf code.prog.now code.layouts.now }
    ensures fuel { machine.new.fuel ≤ machine.old.fuel }
    ensures cleared { IfOk result (λ done. IsStep nothing (Ok (tt {0})) machine.old machine.new
        (change_store (cleared
        (given_offsets (map (piece_in (types_of code.entry)) left.entry.pieces.now.items))
        (local_in here left.entry.local)))) }
{
    let given = given_offsets(alloc, code, left.pieces)?;
    clear(machine, here, left.local, &given);
    Ok(())
}

/// The next piece of an initialiser, or its end, where the cells without an expression become zero
/// or null (C11 6.7.9p21).
pub fn next_piece<'p>(
    alloc: Global,
    code: Code<'p>,
    machine: &mut Machine<'p>,
    here: Here,
    left: Initialiser<'p>,
) -> Result<Next<'p>, Stopped>
    requires { AreLayoutsOf code.prog.now code.layouts.now }
    ensures fuel { machine.new.fuel ≤ machine.old.fuel }
    ensures goes { (n : ℕ) (ts : List Task) (s : State) → IsIn machine.old s
        → Goes code.entry n here ts result machine.new (runs (types_of code.entry)
        (setting_of code.entry) n here ts (now.Pieces left.entry) s) }
{
    match left.pieces.get(left.next) {
        None => {
            clear_others(alloc, code, machine, here, left)?;
            Ok(Next::Just(Now::Ended(Ended::Next)))
        }
        Some(piece) => Ok(Next::Before(Now::Evaluate(&piece.value), Task::Use(Use::Piece(left)))),
    }
}
