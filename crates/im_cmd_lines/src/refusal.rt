ghost use Rattle.std.specs.Prelude.{◌++◌, codes, decimal};
ghost use Rattle.im_io.specs.Whole.{Sends};
ghost use Rattle.im_cmd_lines.specs.Refusals.{FileTooLong, InputTooLong, NotAnImage, NotATrace};
ghost use Rattle.im_cmd_lines.specs.Refusals.{refusal_line, refused_of};

use crate::memory_fault::{send_forms_differ, send_memory_fault};
use crate::source_fault::send_source_fault;
use im_fault::SourceFault;
use im_image::{Form, ImageFault};
use im_io::{Failed, Sink, send, send_pieces};
use im_mem_file::MemoryFault;
use im_num::NoMemory;
use im_power::TraceFault;
use itoa::Buffer;

/// Why a command isn't carried out, with the name of the file that is the cause.
#[derive(Debug, Drop)]
pub enum Refusal<'a> {
    CannotRead(&'a str),
    BadSource(&'a str, SourceFault),
    NotAnImage(&'a str, ImageFault),
    CannotWrite(&'a str),
    /// Bytes of the input, and the most that there may be.
    InputTooLong(u64, u64),
    /// The most bytes that the file may have.
    FileTooLong(&'a str, u64),
    NotATrace(&'a str, TraceFault),
    /// A period ends within a store, and the image's form is 0.
    TornStores,
    NotAMemory(&'a str, MemoryFault),
    /// The image and its form, and the memory's file and its form.
    FormsDiffer(&'a str, Form, &'a str, Form),
    OutOfMemory,
}

impl<'a> From<NoMemory> for Refusal<'a> {
    ghost use Rattle.std.specs.Prelude.{◌≡◌};
    ghost use Rattle.im_cmd_lines.specs.declared.refusal.Refusal.TheVariants.{OutOfMemory};

    ghost from_gives = { λ _ e. e ≡ OutOfMemory };

    fn from(_fault: NoMemory) -> Refusal<'a> {
        Refusal::OutOfMemory
    }
}

/// Sends a file's name and what is wrong with it.
pub fn send_about<S: Sink>(sink: &mut S, name: &str, wrong: &[u8]) -> Result<(), Failed>
    ensures { Sends (codes "intermit: " ++ (name.now ++ (codes ": " ++ wrong.now)) ++ codes "\n")
        result (S.state sink.old) (S.state sink.new) }
{
    send_pieces(sink, &[b"intermit: ", name.as_bytes(), b": ", wrong, b"\n"])
}

/// The same, where a number says more.
pub fn send_numbered<S: Sink>(
    sink: &mut S,
    name: &str,
    wrong: &[u8],
    number: u64,
) -> Result<(), Failed>
    ensures { Sends (codes "intermit: " ++ (name.now ++ codes ": " ++ (wrong.now ++ decimal number))
        ++ codes "\n") result (S.state sink.old) (S.state sink.new) }
{
    let mut text = Buffer::new();
    send_pieces(
        sink,
        &[
            b"intermit: ",
            name.as_bytes(),
            b": ",
            wrong,
            text.format(number).as_bytes(),
            b"\n",
        ],
    )
}

fn send_image_fault<S: Sink>(sink: &mut S, name: &str, fault: &ImageFault) -> Result<(), Failed>
    ensures { Sends (refusal_line (NotAnImage name.now fault.now)) result (S.state sink.old)
        (S.state sink.new) }
{
    match fault {
        ImageFault::ShortImage(count) => send_numbered(sink, name, b"short image at ", *count),
        ImageFault::BadMagic => send_about(sink, name, b"bad magic"),
        ImageFault::BadVersion(version) => {
            send_numbered(sink, name, b"bad version ", u64::from(*version))
        }
        ImageFault::BadField(field) => {
            send_numbered(sink, name, b"bad field ", u64::from(*field))
        }
        ImageFault::Trailing(place) => send_numbered(sink, name, b"trailing bytes at ", *place),
        ImageFault::OutOfMemory => send_about(sink, name, b"no memory"),
    }
}

fn send_trace_fault<S: Sink>(sink: &mut S, name: &str, fault: &TraceFault) -> Result<(), Failed>
    ensures { Sends (refusal_line (NotATrace name.now fault.now)) result (S.state sink.old)
        (S.state sink.new) }
{
    match fault {
        TraceFault::BadLine(line) => send_numbered(sink, name, b"bad line ", *line),
        TraceFault::ZeroRepeat(line) => send_numbered(sink, name, b"zero repeat at line ", *line),
        TraceFault::TooMany(sum) => send_numbered(sink, name, b"too many periods ", *sum),
        TraceFault::OutOfMemory => send_about(sink, name, b"no memory"),
    }
}

fn send_input_too_long<S: Sink>(sink: &mut S, count: u64, limit: u64) -> Result<(), Failed>
    ensures { Sends (refusal_line (InputTooLong count limit)) result (S.state sink.old)
        (S.state sink.new) }
{
    let mut count_text = Buffer::new();
    let mut limit_text = Buffer::new();
    send_pieces(
        sink,
        &[
            b"intermit: input of ",
            count_text.format(count).as_bytes(),
            b" bytes over ",
            limit_text.format(limit).as_bytes(),
            b"\n",
        ],
    )
}

fn send_file_too_long<S: Sink>(sink: &mut S, name: &str, limit: u64) -> Result<(), Failed>
    ensures { Sends (refusal_line (FileTooLong name.now limit)) result (S.state sink.old)
        (S.state sink.new) }
{
    let mut text = Buffer::new();
    send_pieces(
        sink,
        &[
            b"intermit: ",
            name.as_bytes(),
            b" over ",
            text.format(limit).as_bytes(),
            b" bytes\n",
        ],
    )
}

/// Sends a refusal's line.
pub fn send_refusal_line<S: Sink>(sink: &mut S, refusal: &Refusal) -> Result<(), Failed>
    ensures { Sends (refusal_line (refused_of refusal.now)) result (S.state sink.old)
        (S.state sink.new) }
{
    match refusal {
        Refusal::CannotRead(name) => send_pieces(
            sink,
            &[b"intermit: cannot read ", name.as_bytes(), b"\n"],
        ),
        Refusal::BadSource(name, fault) => send_source_fault(sink, name, fault),
        Refusal::NotAnImage(name, fault) => send_image_fault(sink, name, fault),
        Refusal::CannotWrite(name) => send_pieces(
            sink,
            &[b"intermit: cannot write ", name.as_bytes(), b"\n"],
        ),
        Refusal::InputTooLong(count, limit) => send_input_too_long(sink, *count, *limit),
        Refusal::FileTooLong(name, limit) => send_file_too_long(sink, name, *limit),
        Refusal::NotATrace(name, fault) => send_trace_fault(sink, name, fault),
        Refusal::TornStores => send(sink, b"intermit: torn stores need form 1\n"),
        Refusal::NotAMemory(name, fault) => send_memory_fault(sink, name, fault),
        Refusal::FormsDiffer(image, form, memory, other) => {
            send_forms_differ(sink, image, *form, memory, *other)
        }
        Refusal::OutOfMemory => send(sink, b"intermit: no memory\n"),
    }
}
