ghost use Rattle.std.specs.Prelude.{◌<◌, ◌+◌, ◌++◌, ◌^◌, [], codes, decimal, length};
ghost use Rattle.std.specs.List.{flat_map};
ghost use Rattle.im_io.specs.Whole.{Sends};
ghost use Rattle.im_fault.specs.declared.fault.SourceFault.TheVariants.{Line};
ghost use Rattle.im_fault.specs.declared.fault.Subject.{Subject};
ghost use Rattle.im_cmd_check.specs.Message.{caret_line, line_message, shown_line, source_message};
ghost use Rattle.im_cmd_check.specs.Message.{under};
ghost use Rattle.im_cmd_check.specs.Reading.{reading_of};
ghost use Rattle.im_cmd_check.specs.Sentences.{fault_text, told, rule_sentence as rule_sentence_of};
ghost use Rattle.im_cmd_check.specs.Sentences.{syntax_sentence as syntax_sentence_of};

use crate::reading::{Reading, presumed};
use crate::runs::{Run, front_run, part_of, rest_of};
use crate::sentences::{closing, opening, rule_sentence, syntax_sentence};
use im_fault::{LineFault, Place};
use im_io::{Failed, Sink, send, send_pieces};
use itoa::Buffer;

/// Sends a place: the file, its line, and its column.
pub(crate) fn send_place<S: Sink>(
    sink: &mut S,
    name: &[u8],
    line: u64,
    front: &[u8],
) -> Result<(), Failed>
    ensures { Sends (name.now ++ (codes ":" ++ (decimal line ++ (codes ":"
        ++ (decimal (length front.now + 1) ++ codes ": "))))) result (S.state sink.old)
        (S.state sink.new) }
{
    let mut line_text = Buffer::new();
    let mut column_text = Buffer::new();
    send_pieces(
        sink,
        &[
            name,
            b":",
            line_text.format(line).as_bytes(),
            b":",
            column_text.format(front.len() + 1).as_bytes(),
            b": ",
        ],
    )
}

fn send_parts<S: Sink>(
    sink: &mut S,
    kind: &[u8],
    number: &[u8],
    opening: &[u8],
    token: &[u8],
    closing: &[u8],
    why: &[u8],
) -> Result<(), Failed>
    ensures { Sends (kind.now ++ (number.now ++ (opening.now ++ (token.now ++ (closing.now
        ++ (codes ": " ++ (why.now ++ codes "\n"))))))) result (S.state sink.old)
        (S.state sink.new) }
{
    send_pieces(
        sink,
        &[kind, number, opening, token, closing, b": ", why, b"\n"],
    )
}

fn send_told<S: Sink>(
    sink: &mut S,
    kind: &[u8],
    number: &[u8],
    token: &[u8],
    why: &[u8],
) -> Result<(), Failed>
    ensures { Sends (told kind.now number.now token.now why.now) result (S.state sink.old)
        (S.state sink.new) }
{
    let before = opening(token);
    let behind = closing(token);
    send_parts(sink, kind, number, before, token, behind, why)
}

fn send_rule<S: Sink>(sink: &mut S, number: u32, token: &[u8]) -> Result<(), Failed>
    ensures { Sends (told (codes "rule ") (decimal number) token.now (rule_sentence_of number))
        result (S.state sink.old) (S.state sink.new) }
{
    let mut text = Buffer::new();
    let why = rule_sentence(number);
    send_told(sink, b"rule ", text.format(number).as_bytes(), token, why)
}

fn send_syntax<S: Sink>(sink: &mut S, token: &[u8]) -> Result<(), Failed>
    ensures { Sends (told (codes "syntax") [] token.now (syntax_sentence_of token.now)) result
        (S.state sink.old) (S.state sink.new) }
{
    let why = syntax_sentence(token);
    send_told(sink, b"syntax", b"", token, why)
}

fn send_why<S: Sink>(sink: &mut S, why: LineFault, token: &[u8]) -> Result<(), Failed>
    ensures { Sends (fault_text why token.now) result (S.state sink.old) (S.state sink.new) }
{
    match why {
        LineFault::BadByte => send_told(sink, b"bad byte", b"", token, b"no token begins with it"),
        LineFault::OpenComment => {
            send_told(sink, b"open comment", b"", token, b"its */ is missing")
        }
        LineFault::OpenLiteral => send_told(
            sink,
            b"open literal",
            b"",
            token,
            b"its quotation mark is missing, or it hasn't one character",
        ),
        LineFault::BadEscape => send_told(
            sink,
            b"bad escape",
            b"",
            token,
            b"no character is written so",
        ),
        LineFault::BadNumber => send_told(
            sink,
            b"bad number",
            b"",
            token,
            b"it is no integer, or no type holds it",
        ),
        LineFault::BadDirective => send_told(
            sink,
            b"bad directive",
            b"",
            token,
            b"only line markers begin with #",
        ),
        LineFault::Syntax => send_syntax(sink, token),
        LineFault::Nesting => send_told(
            sink,
            b"nesting over 200",
            b"",
            token,
            b"more than 200 stand in one another",
        ),
        LineFault::Dimensions => send_told(
            sink,
            b"dimensions over 512",
            b"",
            token,
            b"more than 512 [..] stand directly behind one another",
        ),
        LineFault::Rule(number) => send_rule(sink, number, token),
    }
}

fn send_under<S: Sink>(sink: &mut S, byte: u8) -> Result<(), Failed>
    ensures { Sends (under byte) result (S.state sink.old) (S.state sink.new) }
{
    if byte == b'\t' {
        send(sink, b"\t")
    } else {
        send(sink, b" ")
    }
}

fn send_front<S: Sink>(sink: &mut S, front: &[u8]) -> Result<(), Failed>
    ensures { Sends (flat_map under front.now) result (S.state sink.old) (S.state sink.new) }
{
    for byte in front {
        match send_under(sink, *byte) {
            Ok(()) => {}
            Err(fault) => return Err(fault),
        }
    }
    Ok(())
}

fn send_caret<S: Sink>(sink: &mut S, front: &[u8]) -> Result<(), Failed>
    ensures { Sends (caret_line front.now) result (S.state sink.old) (S.state sink.new) }
{
    match send_front(sink, front) {
        Ok(()) => send(sink, b"^\n"),
        Err(fault) => Err(fault),
    }
}

// The front of a line and the rest of it.
fn send_line<S: Sink>(sink: &mut S, front: &[u8], rest: &[u8]) -> Result<(), Failed>
    ensures { Sends (front.now ++ (rest.now ++ codes "\n")) result (S.state sink.old)
        (S.state sink.new) }
{
    send_pieces(sink, &[front, rest, b"\n"])
}

/// Sends a line, and a caret below it behind the line's front.
pub(crate) fn send_shown_line<S: Sink>(
    sink: &mut S,
    front: &[u8],
    rest: &[u8],
) -> Result<(), Failed>
    ensures { Sends (shown_line front.now rest.now) result (S.state sink.old)
        (S.state sink.new) }
{
    match send_line(sink, front, front_run(rest, Run::Line)) {
        Ok(()) => send_caret(sink, front),
        Err(fault) => Err(fault),
    }
}

fn send_behind_place<S: Sink>(
    sink: &mut S,
    why: LineFault,
    front: &[u8],
    token: &[u8],
    rest: &[u8],
) -> Result<(), Failed>
    ensures { Sends (fault_text why token.now ++ shown_line front.now rest.now) result
        (S.state sink.old) (S.state sink.new) }
{
    match send_why(sink, why, token) {
        Ok(()) => send_shown_line(sink, front, rest),
        Err(fault) => Err(fault),
    }
}

fn send_line_message<S: Sink>(
    sink: &mut S,
    reading: Reading<'_>,
    why: LineFault,
    token: &[u8],
    rest: &[u8],
) -> Result<(), Failed>
    ensures { Sends (line_message (reading_of reading.entry) why token.now rest.now) result
        (S.state sink.old) (S.state sink.new) }
{
    match send_place(sink, reading.name, reading.line, reading.front) {
        Ok(()) => send_behind_place(sink, why, reading.front, token, rest),
        Err(fault) => Err(fault),
    }
}

/// Sends what is wrong at a place of a source.
pub(crate) fn send_at_place<S: Sink>(
    sink: &mut S,
    file: &str,
    source: &[u8],
    place: Place,
    why: LineFault,
) -> Result<(), Failed>
    requires { length source.now < 2 ^ 32 }
    ensures { (subject : Subject)
        → Sends (source_message file.now source.now (Line place why) subject)
        result (S.state sink.old) (S.state sink.new) }
{
    let head = part_of(source, 0, place.start);
    let token = part_of(source, place.start, place.end);
    let rest = rest_of(source, place.start);
    send_line_message(sink, presumed(file.as_bytes(), head), why, token, rest)
}
