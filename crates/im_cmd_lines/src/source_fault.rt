ghost use Rattle.std.specs.Prelude.{◌≡◌, ◌++◌, codes, decimal};
ghost use Rattle.im_io.specs.Whole.{Sends};
ghost use Rattle.im_fault.specs.declared.fault.SourceFault.TheVariants.{Limit, Line};
ghost use Rattle.im_fault.specs.Texts.{limit_of, quantity_name};
ghost use Rattle.im_cmd_lines.specs.Refusals.{BadSource, refusal_line};

use crate::refusal::send_about;
use im_fault::{LineFault, Place, Quantity, SourceFault};
use im_io::{Failed, Sink, send_pieces};
use itoa::Buffer;

// What is wrong in a line of a file.
fn send_in_line<S: Sink>(sink: &mut S, name: &str, line: u32, wrong: &[u8]) -> Result<(), Failed>
    ensures { Sends (codes "intermit: " ++ (name.now
        ++ (codes ":" ++ decimal line ++ codes ": " ++ wrong.now)) ++ codes "\n") result
        (S.state sink.old) (S.state sink.new) }
{
    let mut text = Buffer::new();
    send_pieces(
        sink,
        &[
            b"intermit: ",
            name.as_bytes(),
            b":",
            text.format(line).as_bytes(),
            b": ",
            wrong,
            b"\n",
        ],
    )
}

// The same, where a number says more.
fn send_numbered_in_line<S: Sink>(
    sink: &mut S,
    name: &str,
    line: u32,
    wrong: &[u8],
    number: u32,
) -> Result<(), Failed>
    ensures { Sends (codes "intermit: " ++ (name.now
        ++ (codes ":" ++ decimal line ++ codes ": " ++ (wrong.now ++ decimal number)))
        ++ codes "\n") result (S.state sink.old) (S.state sink.new) }
{
    let mut line_text = Buffer::new();
    let mut number_text = Buffer::new();
    send_pieces(
        sink,
        &[
            b"intermit: ",
            name.as_bytes(),
            b":",
            line_text.format(line).as_bytes(),
            b": ",
            wrong,
            number_text.format(number).as_bytes(),
            b"\n",
        ],
    )
}

fn send_line_fault<S: Sink>(
    sink: &mut S,
    name: &str,
    place: Place,
    why: LineFault,
) -> Result<(), Failed>
    ensures { Sends (refusal_line (BadSource name.now (Line place why))) result (S.state sink.old)
        (S.state sink.new) }
{
    match why {
        LineFault::BadByte => send_in_line(sink, name, place.line, b"bad byte"),
        LineFault::OpenComment => send_in_line(sink, name, place.line, b"open comment"),
        LineFault::OpenLiteral => send_in_line(sink, name, place.line, b"open literal"),
        LineFault::BadEscape => send_in_line(sink, name, place.line, b"bad escape"),
        LineFault::BadNumber => send_in_line(sink, name, place.line, b"bad number"),
        LineFault::BadDirective => send_in_line(sink, name, place.line, b"bad directive"),
        LineFault::Syntax => send_in_line(sink, name, place.line, b"syntax"),
        LineFault::Nesting => send_in_line(sink, name, place.line, b"nesting over 200"),
        LineFault::Dimensions => send_in_line(sink, name, place.line, b"dimensions over 512"),
        LineFault::Rule(number) => send_numbered_in_line(sink, name, place.line, b"rule ", number),
    }
}

fn name_of(quantity: Quantity) -> &'static str
    ensures { result.now ≡ quantity_name quantity }
{
    match quantity {
        Quantity::Source => "source",
        Quantity::Parameters => "parameters",
        Quantity::Size => "size",
        Quantity::Statics => "statics",
        Quantity::Frame => "frame",
        Quantity::Code => "code",
        Quantity::Derivations => "derivations",
    }
}

// The most that there may be: parameters of a function, derivations of a type, bytes of the others.
fn most_of(quantity: Quantity) -> u64
    ensures { result ≡ limit_of quantity }
{
    match quantity {
        Quantity::Source => 4194304,
        Quantity::Parameters => 8,
        Quantity::Size | Quantity::Statics => 1048576,
        Quantity::Frame => 65536,
        Quantity::Code => 1044480,
        Quantity::Derivations => 250,
    }
}

// A quantity of a file that is over its limit.
fn send_over<S: Sink>(
    sink: &mut S,
    name: &str,
    quantity: &str,
    count: u64,
    limit: u64,
) -> Result<(), Failed>
    ensures { Sends (codes "intermit: " ++ (name.now
        ++ (codes ": " ++ quantity.now ++ codes " " ++ decimal count ++ codes " over "
        ++ decimal limit)) ++ codes "\n") result (S.state sink.old) (S.state sink.new) }
{
    let mut count_text = Buffer::new();
    let mut limit_text = Buffer::new();
    send_pieces(
        sink,
        &[
            b"intermit: ",
            name.as_bytes(),
            b": ",
            quantity.as_bytes(),
            b" ",
            count_text.format(count).as_bytes(),
            b" over ",
            limit_text.format(limit).as_bytes(),
            b"\n",
        ],
    )
}

fn send_limit<S: Sink>(
    sink: &mut S,
    name: &str,
    quantity: Quantity,
    count: u64,
) -> Result<(), Failed>
    ensures { Sends (refusal_line (BadSource name.now (Limit quantity count))) result
        (S.state sink.old) (S.state sink.new) }
{
    send_over(sink, name, name_of(quantity), count, most_of(quantity))
}

/// Sends the line of a source that is refused.
pub fn send_source_fault<S: Sink>(
    sink: &mut S,
    name: &str,
    fault: &SourceFault,
) -> Result<(), Failed>
    ensures { Sends (refusal_line (BadSource name.now fault.now)) result (S.state sink.old)
        (S.state sink.new) }
{
    match fault {
        SourceFault::Line { place, why } => send_line_fault(sink, name, *place, *why),
        SourceFault::Limit { quantity, count } => send_limit(sink, name, *quantity, *count),
        SourceFault::OutOfMemory => send_about(sink, name, b"no memory"),
    }
}
