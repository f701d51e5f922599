ghost use Rattle.std.specs.Prelude.{map};
ghost use Rattle.std.specs.String.{string_bytes};
ghost use Rattle.im_cmd_words.specs.Named.{HasBounds, meaning};
ghost use Rattle.im_cmd.specs.Stages.{TellsFault};
ghost use Rattle.im_cmd.specs.Answers.{Answers, CarriesOut};

use crate::checking::check_source;
use crate::commands::{
    build_source, dump, evaluate_source, execute, generate_and_run, report, run_source, upgrade,
};
use crate::status::USAGE;
use crate::telling::tell_refusal;
use im_cmd_lines::Refusal;
use im_cmd_words::{Command, WordsFault, read_words};
use im_io::{Shelf, Sink, send};
use std::alloc::Global;

/// Carries out the command that the words name, the first of them being the program's own name, and
/// gives the exit status. Files are the shelf's; `out` gets what the command is for, and `err` the
/// lines about a build and a run beside it, or the line of a refusal.
///
/// | Status | Comes |
/// |---|---|
/// | 0 | all was done; a run halted or an evaluation ended, and not for want of stack |
/// | 1 | a run halted for want of stack, or an evaluation ended so |
/// | 2 | the words name no command, or ask for help |
/// | 3 | the source is refused: it is no C, breaks a rule, or is over a limit |
/// | 4 | a run neither halted nor faulted in the periods of power that it had |
/// | 5 | the file to be run, shown or upgraded holds no image (nor, to be upgraded, a memory) |
/// | 6 | the text of the trace's file is no trace's |
/// | 7 | a file can't be read |
/// | 8 | the image, the memory, the output or the report can't be written |
/// | 9 | memory ran out, or a case came that isn't proved impossible; none is known that can come |
/// | 10 | a run ended by a machine fault |
/// | 11 | what a source that is evaluated does is undefined |
/// | 12 | an evaluation ran out of fuel |
/// | 13 | the input is longer than 1048576 bytes |
/// | 14 | another file is longer than files of its kind may be |
/// | 15 | the file that is to be resumed or upgraded holds no memory |
/// | 16 | a period of the trace ends within a store, and the image's form is 0 |
/// | 17 | the image and the memory that is to be resumed have different forms |
pub fn top<H: Shelf, O: Sink, E: Sink>(
    alloc: Global,
    words: &[String],
    shelf: &mut H,
    out: &mut O,
    err: &mut E,
) -> u8
    ensures { Answers (map string_bytes words.now) (H.state shelf.old) (H.state shelf.new)
        (O.state out.old) (O.state out.new) (E.state err.old) (E.state err.new) result }
{
    match read_words(alloc, words) {
        Ok(command) => carry_out(alloc, shelf, out, err, command),
        Err(fault) => tell_fault(err, fault),
    }
}

fn tell_fault<E: Sink>(err: &mut E, fault: WordsFault) -> u8
    ensures { TellsFault fault (E.state err.old) (E.state err.new) result }
{
    match fault {
        WordsFault::Usage(text) => {
            let _ = send(err, text.as_bytes());
            USAGE
        }
        WordsFault::OutOfMemory => tell_refusal(err, &Refusal::OutOfMemory),
    }
}

fn carry_out<H: Shelf, O: Sink, E: Sink>(
    alloc: Global,
    shelf: &mut H,
    out: &mut O,
    err: &mut E,
    command: Command<'_>,
) -> u8
    requires { HasBounds command }
    ensures { CarriesOut (meaning command.entry) (H.state shelf.old) (H.state shelf.new)
        (O.state out.old) (O.state out.new) (E.state err.old) (E.state err.new) result }
{
    match command {
        Command::Build {
            source,
            image,
            building,
        } => build_source(alloc, shelf, out, err, source, image, building),
        Command::Run {
            source,
            image,
            building,
            options,
        } => run_source(alloc, shelf, out, err, source, image, building, options),
        Command::Exec {
            image,
            options,
            resume,
        } => execute(alloc, shelf, out, err, image, options, resume),
        Command::Dump { image } => dump(alloc, shelf, out, err, image),
        Command::Upgrade { old, new } => upgrade(alloc, shelf, out, err, old, new),
        Command::Report { source, building } => report(alloc, shelf, out, err, source, building),
        Command::Eval {
            source,
            building,
            options,
        } => evaluate_source(alloc, shelf, out, err, source, building, options),
        Command::Gen { count } => generate_and_run(alloc, out, err, count),
        Command::Check { source } => check_source(alloc, shelf, out, err, source),
    }
}
