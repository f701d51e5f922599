ghost use Rattle.std.specs.Prelude.{◌<◌, ◌^◌, length};
ghost use Rattle.im_cmd_words.specs.Named.{checks};
ghost use Rattle.im_cmd_check.specs.Message.{source_message};
ghost use Rattle.im_cmd.specs.Answers.{CarriesOut};
ghost use Rattle.im_cmd.specs.Stages.{TellsSecond};

use crate::building::read_source;
use crate::status::{DONE, REFUSED_SOURCE, UNWRITABLE};
use crate::telling::tell_refusal;
use im_cmd_check::send_source_message;
use im_cmd_lines::Refusal;
use im_driver::{Options, compile_named};
use im_fault::{SourceFault, Subject};
use im_io::{Failed, Shelf, Sink};
use std::alloc::Global;

// What `build` builds with where no options are given.
const DEFAULT: Options = Options {
    stack: 65_536,
    out_cap: 1_048_576,
    max_gap: None,
};

fn tell_fault<E: Sink>(
    err: &mut E,
    source: &str,
    text: &[u8],
    fault: &SourceFault,
    subject: &Subject,
) -> u8
    requires { length text.now < 2 ^ 32 }
    ensures { TellsSecond (source_message source.now text.now fault.now subject.now) 3
        (E.state err.old) (E.state err.new) result }
{
    match send_source_message(err, source, text, fault, subject) {
        Ok(()) => REFUSED_SOURCE,
        Err(Failed) => UNWRITABLE,
    }
}

/// Compiles a source, and tells `err` where and why it is refused, and of which function a limit is
/// exceeded. Nothing is stored.
pub fn check_source<H: Shelf, O: Sink, E: Sink>(
    alloc: Global,
    shelf: &mut H,
    out: &mut O,
    err: &mut E,
    source: &str,
) -> u8
    ensures { CarriesOut (checks source.now) (H.state shelf.old) (H.state shelf.new)
        (O.state out.old) (O.state out.new) (E.state err.old) (E.state err.new) result }
{
    let text = match read_source(alloc, shelf, source) {
        Ok(text) => text,
        Err(refusal) => return tell_refusal(err, &refusal),
    };
    match compile_named(alloc, &text, DEFAULT) {
        Ok(_) => DONE,
        Err(refused) => match refused.fault {
            SourceFault::OutOfMemory => tell_refusal(err, &Refusal::OutOfMemory),
            fault => tell_fault(err, source, &text, &fault, &refused.subject),
        },
    }
}
