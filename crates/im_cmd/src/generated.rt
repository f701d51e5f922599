ghost use Rattle.std.specs.Prelude.{[]};
ghost use Rattle.im_io.specs.Sink.{SinkState};
ghost use Rattle.im_cmd_lines.specs.Runs.{ending_line};
ghost use Rattle.im_cmd.specs.Generations.{generation_outcome, generation_told};
ghost use Rattle.im_cmd.specs.Outcome.{Tells, done, ending_status};
ghost use Rattle.im_cmd.specs.Stages.{ended_of};

use crate::status::{UNWRITABLE, status_of_ending};
use crate::telling::finish;
use im_cmd_lines::{Ending, send_ending_line, send_generation_line};
use im_emu::Machine;
use im_io::{Failed, Sink};
use im_mem_paged::PagedMem;

// Sends to `err` how a run ended that has no other line, and gives the exit status.
fn tell_ending<E: Sink>(err: &mut E, ending: Ending, status: i32) -> u8
    ensures { (out : SinkState) → Tells out out (E.state err.old) (E.state err.new)
        (done [] (ending_line ending status) (ending_status ending)) result }
{
    match send_ending_line(err, ending, status) {
        Ok(()) => status_of_ending(ending),
        Err(Failed) => UNWRITABLE,
    }
}

// Sends the line of a run that ended so to `out`, or how it ended to `err`, and gives the exit
// status.
fn tell_made<O: Sink, E: Sink>(
    out: &mut O,
    err: &mut E,
    ending: Ending,
    count: u32,
    output: &[u8],
    status: i32,
) -> u8
    ensures { Tells (O.state out.old) (O.state out.new) (E.state err.old) (E.state err.new)
        (generation_told ending count output.now status) result }
{
    match ending {
        Ending::Returned => {
            let sent = send_generation_line(out, count, output, status);
            finish(err, sent)
        }
        Ending::StackExhausted | Ending::OutOfPower | Ending::MachineFault(_) => {
            tell_ending(err, ending, status)
        }
    }
}

/// Tells how the run of a made source's image ended, and gives the exit status.
pub fn tell_generation<O: Sink, E: Sink>(
    out: &mut O,
    err: &mut E,
    count: u32,
    machine: &Machine<PagedMem>,
) -> u8
    ensures { Tells (O.state out.old) (O.state out.new) (E.state err.old) (E.state err.new)
        (generation_outcome count machine.now.form (ended_of machine.now)) result }
{
    let ending = Ending::of(machine.went(), machine.reason());
    tell_made(out, err, ending, count, machine.output(), machine.status())
}
