ghost use Rattle.std.specs.Prelude.{ℕ, List, Ok, IfOk, IfSome};
ghost use Rattle.im_block.specs.Meaning as meaning;
ghost use Rattle.im_block.specs.Runs as whole;
ghost use Rattle.im_block.specs.Runs.{Runs};
ghost use Rattle.im_eval_machine.specs.Endings.{told};
ghost use Rattle.im_block_run.specs.Ends.{Reaches};
ghost use Rattle.im_block_run.specs.Laid.{AreLaidOut};
ghost use Rattle.im_block_run.specs.Shown.{Follows, Halts, IsState, setting_of};

use crate::calls::{Callee, enter};
use crate::code::{Code, Setting};
use crate::exits::step;
use crate::finish::conclude;
use crate::layouts::layouts_of;
use crate::start::before;
use crate::state::State;
use crate::stop::Stop;
use im_block::Unit;
use im_eval_machine::Outcome;
use im_num::NoMemory;
use std::alloc::Global;

/// `main` begins.
fn start<'u>(alloc: Global, code: Code<'u>, state: &mut State<'u>) -> Result<(), Stop>
    requires { AreLaidOut code.unit.now code.layouts.now }
    ensures { let u = code.entry.unit.now in let g = setting_of code.entry.setting in (n : ℕ)
        → IsState state.old (whole.before u g n) → Follows u result state.new (whole.start u g n) }
{
    let main = Callee {
        to: 0,
        function: code.unit.main,
        first: 0,
        count: 0,
    };
    let begun = state.begun;
    let frame = enter(alloc, code, &mut state.memory, &state.frame, begun, main)?;
    state.begun = frame.number;
    state.frame = frame;
    Ok(())
}

/// Goes on until the run stops, for at most so many steps.
fn go_on<'u>(alloc: Global, code: Code<'u>, state: &mut State<'u>, steps: u64) -> Stop
    requires { AreLaidOut code.unit.now code.layouts.now }
    ensures { let u = code.entry.unit.now in let g = setting_of code.entry.setting in (n : ℕ)
        (r : meaning.Next) → Reaches u g n r → Follows u (Ok (tt {0})) state.old r
        → (last : meaning.Next) × Reaches u g n last × Halts u result state.new last }
{
    'steps: for _ in 0..steps {
        match step(alloc, code, state) {
            Ok(()) => {}
            Err(why) => return why,
        }
    }
    Stop::Beyond
}

/// The whole run.
fn finish<'u>(alloc: Global, code: Code<'u>, state: &mut State<'u>, steps: u64) -> Stop
    requires { AreLaidOut code.unit.now code.layouts.now }
    ensures { let u = code.entry.unit.now in let g = setting_of code.entry.setting in (n : ℕ)
        → IsState state.old (whole.before u g n)
        → (last : meaning.Next) × Reaches u g n last × Halts u result state.new last }
{
    match start(alloc, code, state) {
        Ok(()) => go_on(alloc, code, state, steps),
        Err(why) => why,
    }
}

/// What a unit does in a setting with so much fuel, where so many steps come to an end: `None` says
/// nothing of the unit. It serves block code: at a line of a slot, and at a number of more than 64
/// bits, it answers `None`.
pub fn run(
    alloc: Global,
    unit: &Unit,
    setting: Setting,
    fuel: u64,
    steps: u64,
) -> Result<Option<Outcome>, NoMemory>
    ensures { IfOk result (λ found. IfSome found (λ outcome. (events : List meaning.Event)
        × Runs unit.now (setting_of setting.entry) fuel (told outcome) events)) }
{
    let layouts = layouts_of(alloc, unit)?;
    let code = Code {
        unit,
        layouts: &layouts,
        setting,
    };
    match before(alloc, code, fuel) {
        Ok(mut state) => {
            let why = finish(alloc, code, &mut state, steps);
            conclude(alloc, unit, state, why)
        }
        Err(Stop::OutOfMemory) => Err(NoMemory::OutOfMemory),
        Err(_) => Ok(None),
    }
}
