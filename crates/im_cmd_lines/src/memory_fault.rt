ghost use Rattle.im_io.specs.Whole.{Sends};
ghost use Rattle.im_cmd_lines.specs.Refusals.{FormsDiffer, NotAMemory, refusal_line};

use crate::refusal::{send_about, send_numbered};
use im_image::Form;
use im_io::{Failed, Sink, send_pieces};
use im_mem_file::MemoryFault;
use itoa::Buffer;

/// Sends the line of a file that holds no memory.
pub fn send_memory_fault<S: Sink>(
    sink: &mut S,
    name: &str,
    fault: &MemoryFault,
) -> Result<(), Failed>
    ensures { Sends (refusal_line (NotAMemory name.now fault.now)) result (S.state sink.old)
        (S.state sink.new) }
{
    match fault {
        MemoryFault::ShortMemory(count) => send_numbered(sink, name, b"short memory at ", *count),
        MemoryFault::BadMagic => send_about(sink, name, b"bad magic"),
        MemoryFault::BadVersion(version) => {
            send_numbered(sink, name, b"bad version ", u64::from(*version))
        }
        MemoryFault::BadForm(form) => { send_numbered(sink, name, b"bad form ", u64::from(*form)) }
        MemoryFault::BadPages(count) => {
            send_numbered(sink, name, b"bad pages ", u64::from(*count))
        }
        MemoryFault::BadPage(page) => { send_numbered(sink, name, b"bad page ", u64::from(*page)) }
        MemoryFault::Trailing(place) => send_numbered(sink, name, b"trailing bytes at ", *place),
        MemoryFault::OutOfMemory => send_about(sink, name, b"no memory"),
    }
}

/// Sends the line of an image and of a memory's file whose forms differ.
pub fn send_forms_differ<S: Sink>(
    sink: &mut S,
    image: &str,
    form: Form,
    memory: &str,
    other: Form,
) -> Result<(), Failed>
    ensures { Sends (refusal_line (FormsDiffer image.now form memory.now other)) result
        (S.state sink.old) (S.state sink.new) }
{
    let mut form_text = Buffer::new();
    let mut other_text = Buffer::new();
    send_pieces(
        sink,
        &[
            b"intermit: ",
            image.as_bytes(),
            b" is form ",
            form_text.format(form.number()).as_bytes(),
            b", ",
            memory.as_bytes(),
            b" is form ",
            other_text.format(other.number()).as_bytes(),
            b"\n",
        ],
    )
}
