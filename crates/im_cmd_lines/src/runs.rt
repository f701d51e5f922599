ghost use Rattle.std.specs.Prelude.{◌++◌, codes, decimal};
ghost use Rattle.im_io.specs.Whole.{Sends};
ghost use Rattle.im_cmd_lines.specs.Runs.{ending_line, run_lines};

use crate::ending::Ending;
use crate::numerals::hex_text;
use im_io::{Failed, Sink, send, send_pieces};
use itoa::Buffer;

/// Sends how a run ended: the status that the program returned, or why there is none.
pub fn send_ending_line<S: Sink>(sink: &mut S, ending: Ending, status: i32) -> Result<(), Failed>
    ensures { Sends (ending_line ending status) result (S.state sink.old) (S.state sink.new) }
{
    match ending {
        Ending::Returned => {
            let mut text = Buffer::new();
            send_pieces(sink, &[b"status ", text.format(status).as_bytes(), b"\n"])
        }
        Ending::StackExhausted => send(sink, b"intermit: stack exhausted\n"),
        Ending::OutOfPower => send(sink, b"intermit: out of power\n"),
        Ending::MachineFault(at) => send_pieces(
            sink,
            &[b"intermit: machine fault at 0x", &hex_text(at), b"\n"],
        ),
    }
}

fn send_counts<S: Sink>(sink: &mut S, commits: u64, instructions: u64) -> Result<(), Failed>
    ensures { Sends (codes "commits " ++ decimal commits ++ codes "\ninstructions "
        ++ decimal instructions ++ codes "\n") result (S.state sink.old) (S.state sink.new) }
{
    let mut commits_text = Buffer::new();
    let mut instructions_text = Buffer::new();
    send_pieces(
        sink,
        &[
            b"commits ",
            commits_text.format(commits).as_bytes(),
            b"\ninstructions ",
            instructions_text.format(instructions).as_bytes(),
            b"\n",
        ],
    )
}

/// Sends the lines of a run: how it ended, how often a section was committed, and how many
/// instructions were executed.
pub fn send_run_lines<S: Sink>(
    sink: &mut S,
    ending: Ending,
    status: i32,
    commits: u64,
    instructions: u64,
) -> Result<(), Failed>
    ensures { Sends (run_lines ending status commits instructions) result (S.state sink.old)
        (S.state sink.new) }
{
    match send_ending_line(sink, ending, status) {
        Ok(()) => send_counts(sink, commits, instructions),
        Err(fault) => Err(fault),
    }
}
