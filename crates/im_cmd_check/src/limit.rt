ghost use Rattle.std.specs.Prelude.{◌≡◌, ◌<◌, ◌++◌, ◌^◌, codes, decimal, drop, length};
ghost use Rattle.im_io.specs.Whole.{Sends};
ghost use Rattle.im_fault.specs.Texts.{limit_of, quantity_name};
ghost use Rattle.im_cmd_check.specs.Message.{declared_message, limit_message, shown_line};
ghost use Rattle.im_cmd_check.specs.Reading.{presumed as presumed_reading, reading_of};
ghost use Rattle.im_cmd_check.specs.Runs.{part};
ghost use Rattle.im_cmd_check.specs.Sentences.{named_text, over_text};

use crate::message::{send_place, send_shown_line};
use crate::reading::{Reading, presumed};
use crate::runs::{part_of, rest_of};
use crate::sentences::{closing, limit_sentence, within};
use im_fault::{Place, Quantity, Subject};
use im_io::{Failed, Sink, send_pieces};
use itoa::Buffer;

fn name_of(quantity: Quantity) -> &'static str
    ensures { result.now ≡ quantity_name quantity }
{
    match quantity {
        Quantity::Source => "source",
        Quantity::Parameters => "parameters",
        Quantity::Size => "size",
        Quantity::Statics => "statics",
        Quantity::Frame => "frame",
        Quantity::Code => "code",
        Quantity::Derivations => "derivations",
    }
}

// The most that there may be: parameters of a function, derivations of a type, bytes of the others.
fn most_of(quantity: Quantity) -> u64
    ensures { result ≡ limit_of quantity }
{
    match quantity {
        Quantity::Source => 4194304,
        Quantity::Parameters => 8,
        Quantity::Size | Quantity::Statics => 1048576,
        Quantity::Frame => 65536,
        Quantity::Code => 1044480,
        Quantity::Derivations => 250,
    }
}

fn send_over<S: Sink>(
    sink: &mut S,
    file: &str,
    quantity: &str,
    count: u64,
    limit: u64,
) -> Result<(), Failed>
    ensures { Sends (file.now ++ (codes ": " ++ (quantity.now ++ (codes " " ++ (decimal count
        ++ (codes " over " ++ (decimal limit ++ codes "\n"))))))) result (S.state sink.old)
        (S.state sink.new) }
{
    let mut count_text = Buffer::new();
    let mut limit_text = Buffer::new();
    send_pieces(
        sink,
        &[
            file.as_bytes(),
            b": ",
            quantity.as_bytes(),
            b" ",
            count_text.format(count).as_bytes(),
            b" over ",
            limit_text.format(limit).as_bytes(),
            b"\n",
        ],
    )
}

// A quantity of a file as a whole is over its limit.
fn send_whole<S: Sink>(
    sink: &mut S,
    file: &str,
    quantity: Quantity,
    count: u64,
) -> Result<(), Failed>
    ensures { Sends (file.now ++ (codes ": " ++ over_text quantity count (codes "\n"))) result
        (S.state sink.old) (S.state sink.new) }
{
    let name = name_of(quantity);
    send_over(sink, file, name, count, most_of(quantity))
}

fn send_over_in<'a, S: Sink>(
    sink: &mut S,
    quantity: &str,
    count: u64,
    limit: u64,
    before: &'a [u8],
    name: &'a [u8],
    behind: &'a [u8],
    why: &'a [u8],
) -> Result<(), Failed>
    ensures { Sends (quantity.now ++ (codes " " ++ (decimal count ++ (codes " over "
        ++ (decimal limit ++ (before.now ++ (name.now ++ (behind.now ++ (codes ": " ++ (why.now
        ++ codes "\n")))))))))) result (S.state sink.old) (S.state sink.new) }
{
    let mut count_text = Buffer::new();
    let mut limit_text = Buffer::new();
    send_pieces(
        sink,
        &[
            quantity.as_bytes(),
            b" ",
            count_text.format(count).as_bytes(),
            b" over ",
            limit_text.format(limit).as_bytes(),
            before,
            name,
            behind,
            b": ",
            why,
            b"\n",
        ],
    )
}

// A quantity is over its limit in what has this name, if it has one, and what the limit asks for.
fn send_in<S: Sink>(sink: &mut S, quantity: Quantity, count: u64, name: &[u8]) -> Result<(), Failed>
    ensures { Sends (named_text quantity count name.now) result (S.state sink.old)
        (S.state sink.new) }
{
    let before = within(name);
    let behind = closing(name);
    let why = limit_sentence(quantity);
    let most = most_of(quantity);
    send_over_in(
        sink,
        name_of(quantity),
        count,
        most,
        before,
        name,
        behind,
        why,
    )
}

fn send_file<S: Sink>(sink: &mut S, file: &str) -> Result<(), Failed>
    ensures { Sends (file.now ++ codes ": ") result (S.state sink.old) (S.state sink.new) }
{
    send_pieces(sink, &[file.as_bytes(), b": "])
}

fn send_named<S: Sink>(
    sink: &mut S,
    file: &str,
    quantity: Quantity,
    count: u64,
    name: &[u8],
) -> Result<(), Failed>
    ensures { Sends ((file.now ++ codes ": ") ++ named_text quantity count name.now) result
        (S.state sink.old) (S.state sink.new) }
{
    match send_file(sink, file) {
        Ok(()) => send_in(sink, quantity, count, name),
        Err(fault) => Err(fault),
    }
}

fn send_in_line<S: Sink>(
    sink: &mut S,
    quantity: Quantity,
    count: u64,
    name: &[u8],
    front: &[u8],
    rest: &[u8],
) -> Result<(), Failed>
    ensures { Sends (named_text quantity count name.now ++ shown_line front.now rest.now) result
        (S.state sink.old) (S.state sink.new) }
{
    match send_in(sink, quantity, count, name) {
        Ok(()) => send_shown_line(sink, front, rest),
        Err(fault) => Err(fault),
    }
}

fn send_declared_message<S: Sink>(
    sink: &mut S,
    reading: Reading<'_>,
    quantity: Quantity,
    count: u64,
    name: &[u8],
    rest: &[u8],
) -> Result<(), Failed>
    ensures { Sends (declared_message (reading_of reading.entry) quantity count name.now rest.now)
        result (S.state sink.old) (S.state sink.new) }
{
    match send_place(sink, reading.name, reading.line, reading.front) {
        Ok(()) => send_in_line(sink, quantity, count, name, reading.front, rest),
        Err(fault) => Err(fault),
    }
}

fn send_declared<S: Sink>(
    sink: &mut S,
    file: &str,
    source: &[u8],
    quantity: Quantity,
    count: u64,
    place: Place,
    name: &[u8],
) -> Result<(), Failed>
    requires { length source.now < 2 ^ 32 }
    ensures { Sends (declared_message (presumed_reading file.now (part source.now 0 place.start))
        quantity count name.now (drop place.start source.now)) result (S.state sink.old)
        (S.state sink.new) }
{
    let head = part_of(source, 0, place.start);
    let rest = rest_of(source, place.start);
    let reading = presumed(file.as_bytes(), head);
    send_declared_message(sink, reading, quantity, count, name, rest)
}

/// Sends that a quantity of the subject is over its limit, with the subject's name and place where
/// these are known.
pub(crate) fn send_limit<S: Sink>(
    sink: &mut S,
    file: &str,
    source: &[u8],
    quantity: Quantity,
    count: u64,
    subject: &Subject,
) -> Result<(), Failed>
    requires { length source.now < 2 ^ 32 }
    ensures { Sends (limit_message file.now source.now quantity count subject.now) result
        (S.state sink.old) (S.state sink.new) }
{
    match subject {
        Subject::Whole => send_whole(sink, file, quantity, count),
        Subject::Named(name) => send_named(sink, file, quantity, count, name),
        Subject::Declared(place, name) => {
            send_declared(sink, file, source, quantity, count, *place, name)
        }
    }
}
