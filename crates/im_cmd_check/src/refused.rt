ghost use Rattle.std.specs.Prelude.{◌<◌, ◌^◌, length};
ghost use Rattle.im_io.specs.Whole.{Sends};
ghost use Rattle.im_cmd_check.specs.Message.{source_message};

use crate::limit::send_limit;
use crate::message::send_at_place;
use im_fault::{SourceFault, Subject};
use im_io::{Failed, Sink, send};

/// Sends the message of a source that is refused: its text, and the name of its file. A quantity
/// over its limit is counted of the subject.
pub fn send_source_message<S: Sink>(
    sink: &mut S,
    file: &str,
    source: &[u8],
    fault: &SourceFault,
    subject: &Subject,
) -> Result<(), Failed>
    requires { length source.now < 2 ^ 32 }
    ensures { Sends (source_message file.now source.now fault.now subject.now) result
        (S.state sink.old) (S.state sink.new) }
{
    match fault {
        SourceFault::Line { place, why } => send_at_place(sink, file, source, *place, *why),
        SourceFault::Limit { quantity, count } => {
            send_limit(sink, file, source, *quantity, *count, subject)
        }
        SourceFault::OutOfMemory => send(sink, b"intermit: no memory\n"),
    }
}
