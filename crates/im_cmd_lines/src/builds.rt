ghost use Rattle.std.specs.List.{flat_map};
ghost use Rattle.im_io.specs.Whole.{Sends};
ghost use Rattle.im_cmd_lines.specs.Builds.{build_lines, frame_line, size_lines};

use im_io::{Failed, Sink, send_pieces};
use im_typed::Frame;
use itoa::Buffer;

fn send_size_lines<S: Sink>(sink: &mut S, words: u32, gap: u32) -> Result<(), Failed>
    ensures { Sends (size_lines words gap) result (S.state sink.old) (S.state sink.new) }
{
    let mut words_text = Buffer::new();
    let mut gap_text = Buffer::new();
    send_pieces(
        sink,
        &[
            b"code ",
            words_text.format(words).as_bytes(),
            b"\ngap ",
            gap_text.format(gap).as_bytes(),
            b"\n",
        ],
    )
}

fn send_frame_line<S: Sink>(sink: &mut S, frame: &Frame) -> Result<(), Failed>
    ensures { Sends (frame_line frame.now) result (S.state sink.old) (S.state sink.new) }
{
    let mut size_text = Buffer::new();
    send_pieces(
        sink,
        &[
            b"frame ",
            &frame.name,
            b" ",
            size_text.format(frame.size).as_bytes(),
            b"\n",
        ],
    )
}

/// Sends a line for each frame: the function's name, and the frame's bytes.
pub(crate) fn send_frame_lines<S: Sink>(sink: &mut S, frames: &[Frame]) -> Result<(), Failed>
    ensures { Sends (flat_map frame_line frames.now) result (S.state sink.old) (S.state sink.new) }
{
    for frame in frames {
        match send_frame_line(sink, frame) {
            Ok(()) => {}
            Err(fault) => return Err(fault),
        }
    }
    Ok(())
}

/// Sends the lines of a build: words of code, a bound on the instructions from power-up or a cut to
/// the next cut or the halt, and the bytes of each function's frame.
pub fn send_build_lines<S: Sink>(
    sink: &mut S,
    words: u32,
    gap: u32,
    frames: &[Frame],
) -> Result<(), Failed>
    ensures { Sends (build_lines words gap frames.now) result (S.state sink.old)
        (S.state sink.new) }
{
    match send_size_lines(sink, words, gap) {
        Ok(()) => send_frame_lines(sink, frames),
        Err(fault) => Err(fault),
    }
}
