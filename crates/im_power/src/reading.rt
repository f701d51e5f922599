ghost use Rattle.std.specs.Prelude.{◌≡◌, ◌+◌, ◌-◌, ◌^◌, ◌++◌, ◌∷◌, [], None, OnOk, IfErr, min};
ghost use Rattle.im_power.specs.Text.{trace_of, IsAnswer, IsFaultOf, first_fault, periods_of};
ghost use Rattle.im_power.specs.Text.{repeats as repeats_of};

use crate::fault::TraceFault;
use crate::line::{Line, read_line};
use crate::period::Period;
use crate::trace::Trace;
use std::alloc::Global;

/// The most times that power comes in a trace.
const MOST_PERIODS: u64 = 1_000_000;

/// The periods of the lines so far, and their repeats in all (at most 2^64 - 1).
#[derive(Drop)]
struct Tally {
    periods: Vec<Period>,
    repeats: u64,
}

/// Adds what a line says, which has this number.
fn add(tally: &mut Tally, said: Line, line: u64) -> Result<(), TraceFault>
    ensures right { OnOk result (first_fault line (said ∷ []) ≡ None) }
    ensures periods { OnOk result (tally.new.periods.items ≡ tally.old.periods.items
        ++ periods_of (said ∷ [])) }
    ensures repeats { OnOk result
        (tally.new.repeats ≡ min (tally.old.repeats + repeats_of (periods_of (said ∷ []))) (2 ^ 64 - 1)) }
    ensures wrong { IfErr result (λ fault. IsFaultOf fault (first_fault line (said ∷ []))) }
{
    let repeats = tally.repeats;
    match said {
        Line::Skipped => Ok(()),
        Line::Gives(period) => {
            tally.periods.push(period)?;
            tally.repeats = repeats.saturating_add(u64::from(period.count));
            Ok(())
        }
        Line::Malformed => Err(TraceFault::BadLine(line)),
        Line::ZeroRepeats => Err(TraceFault::ZeroRepeat(line)),
    }
}

/// The periods that a trace text lists.
pub fn read_trace(alloc: Global, bytes: &[u8]) -> Result<Trace, TraceFault>
    ensures { IsAnswer result (trace_of bytes.now) }
{
    let mut tally = Tally {
        periods: Vec::new(alloc),
        repeats: 0,
    };
    let mut line: u64 = 1;
    for text in bytes.split(|byte| *byte == b'\n') {
        let said = read_line(alloc, text)?;
        add(&mut tally, said, line)?;
        line += 1;
    }
    if tally.repeats > MOST_PERIODS {
        return Err(TraceFault::TooMany(tally.repeats));
    }
    Ok(Trace::new(tally.periods))
}
