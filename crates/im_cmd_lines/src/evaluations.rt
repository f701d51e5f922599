ghost use Rattle.im_io.specs.Whole.{Sends};
ghost use Rattle.im_cmd_lines.specs.Evaluations.{evaluated_line, evaluation_lines};

use crate::builds::send_frame_lines;
use im_io::{Failed, Sink, send, send_pieces};
use im_store::Undefined;
use im_typed::Frame;
use itoa::Buffer;

/// How the evaluation of a source ended.
#[derive(Clone, Copy, PartialEq, Eq, Debug)]
pub enum Evaluated {
    /// `main` returned this status.
    Returned(i128),
    /// A function was called whose frame has no room on the stack.
    StackExhausted,
    /// What the source does on this input is undefined.
    Undefined(Undefined),
    OutOfFuel,
}

fn send_evaluated_line<S: Sink>(sink: &mut S, evaluated: Evaluated) -> Result<(), Failed>
    ensures { Sends (evaluated_line evaluated) result (S.state sink.old) (S.state sink.new) }
{
    match evaluated {
        Evaluated::Returned(status) => {
            let mut text = Buffer::new();
            send_pieces(sink, &[b"status ", text.format(status).as_bytes(), b"\n"])
        }
        Evaluated::StackExhausted => send(sink, b"intermit: stack exhausted\n"),
        Evaluated::Undefined(why) => {
            let mut text = Buffer::new();
            send_pieces(
                sink,
                &[
                    b"intermit: undefined U",
                    text.format(why.number()).as_bytes(),
                    b"\n",
                ],
            )
        }
        Evaluated::OutOfFuel => send(sink, b"intermit: out of fuel\n"),
    }
}

/// Sends the lines of an evaluation: the frames that it was made with, and how it ended. Its
/// variables have lines of their own.
pub fn send_evaluation_lines<S: Sink>(
    sink: &mut S,
    frames: &[Frame],
    evaluated: Evaluated,
) -> Result<(), Failed>
    ensures { Sends (evaluation_lines frames.now evaluated) result (S.state sink.old)
        (S.state sink.new) }
{
    match send_frame_lines(sink, frames) {
        Ok(()) => send_evaluated_line(sink, evaluated),
        Err(fault) => Err(fault),
    }
}
