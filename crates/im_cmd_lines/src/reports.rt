ghost use Rattle.std.specs.Prelude.{◌++◌, codes};
ghost use Rattle.std.specs.List.{flat_map};
ghost use Rattle.im_io.specs.Whole.{Sends};
ghost use Rattle.im_cmd_lines.specs.Builds.{frame_line};
ghost use Rattle.im_cmd_lines.specs.Reports.{cause_text, cut_line, place_text, report_head};
ghost use Rattle.im_cmd_lines.specs.Reports.{report_lines};

use crate::builds::send_frame_lines;
use crate::numerals::hex_text;
use im_io::{Failed, Sink, send, send_pieces};
use im_num::Cause;
use im_rv::Cut;
use im_typed::Frame;
use itoa::Buffer;

fn send_report_head<S: Sink>(sink: &mut S, words: u32, gap: u32, statics: u32) -> Result<(), Failed>
    ensures { Sends (report_head words gap statics) result (S.state sink.old) (S.state sink.new) }
{
    let mut words_text = Buffer::new();
    let mut gap_text = Buffer::new();
    let mut statics_text = Buffer::new();
    send_pieces(
        sink,
        &[
            b"code ",
            words_text.format(words).as_bytes(),
            b"\ngap ",
            gap_text.format(gap).as_bytes(),
            b"\nstatics ",
            statics_text.format(statics).as_bytes(),
            b"\n",
        ],
    )
}

fn send_dependence<S: Sink>(sink: &mut S, read: u64, write: u64) -> Result<(), Failed>
    ensures { Sends (cause_text (Cause.Dep read write)) result (S.state sink.old)
        (S.state sink.new) }
{
    let read_at = hex_text((read % 4_294_967_296) as u32);
    let write_at = hex_text((write % 4_294_967_296) as u32);
    send_pieces(sink, &[b"dep ", &read_at, b" ", &write_at])
}

fn send_cause<S: Sink>(sink: &mut S, cause: Cause) -> Result<(), Failed>
    ensures { Sends (cause_text cause) result (S.state sink.old) (S.state sink.new) }
{
    match cause {
        Cause::Entry => send(sink, b"entry"),
        Cause::Return => send(sink, b"return"),
        Cause::Loop => send(sink, b"loop"),
        Cause::Length => send(sink, b"length"),
        Cause::Gap => send(sink, b"gap"),
        Cause::Dep { read, write } => send_dependence(sink, read, write),
    }
}

// A cut's address and the name of the part of the code, in front of the cause.
fn send_place<S: Sink>(sink: &mut S, cut: &Cut) -> Result<(), Failed>
    ensures { Sends (place_text cut.now) result (S.state sink.old) (S.state sink.new) }
{
    send_pieces(
        sink,
        &[
            b"cut ",
            &hex_text(cut.at),
            b" ",
            cut.function.as_bytes(),
            b" ",
        ],
    )
}

fn send_cause_end<S: Sink>(sink: &mut S, cause: Cause) -> Result<(), Failed>
    ensures { Sends (cause_text cause ++ codes "\n") result (S.state sink.old) (S.state sink.new) }
{
    match send_cause(sink, cause) {
        Ok(()) => send(sink, b"\n"),
        Err(fault) => Err(fault),
    }
}

fn send_cut_line<S: Sink>(sink: &mut S, cut: &Cut) -> Result<(), Failed>
    ensures { Sends (cut_line cut.now) result (S.state sink.old) (S.state sink.new) }
{
    match send_place(sink, cut) {
        Ok(()) => send_cause_end(sink, cut.cause),
        Err(fault) => Err(fault),
    }
}

fn send_cut_lines<S: Sink>(sink: &mut S, cuts: &[Cut]) -> Result<(), Failed>
    ensures { Sends (flat_map cut_line cuts.now) result (S.state sink.old) (S.state sink.new) }
{
    for cut in cuts {
        match send_cut_line(sink, cut) {
            Ok(()) => {}
            Err(fault) => return Err(fault),
        }
    }
    Ok(())
}

// All lines in front of those of the cuts.
fn send_report_front<S: Sink>(
    sink: &mut S,
    words: u32,
    gap: u32,
    statics: u32,
    frames: &[Frame],
) -> Result<(), Failed>
    ensures { Sends (report_head words gap statics ++ flat_map frame_line frames.now) result
        (S.state sink.old) (S.state sink.new) }
{
    match send_report_head(sink, words, gap, statics) {
        Ok(()) => send_frame_lines(sink, frames),
        Err(fault) => Err(fault),
    }
}

/// Sends the lines of a report: words of code, the longest gap in instructions, bytes of statics,
/// the bytes of each function's frame, and each cut by its address, with the part of the code that
/// it stands in and its cause.
pub fn send_report_lines<S: Sink>(
    sink: &mut S,
    words: u32,
    gap: u32,
    statics: u32,
    frames: &[Frame],
    cuts: &[Cut],
) -> Result<(), Failed>
    ensures { Sends (report_lines words gap statics frames.now cuts.now) result
        (S.state sink.old) (S.state sink.new) }
{
    match send_report_front(sink, words, gap, statics, frames) {
        Ok(()) => send_cut_lines(sink, cuts),
        Err(fault) => Err(fault),
    }
}
