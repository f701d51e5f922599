ghost use Rattle.std.specs.Prelude.{option_map};
ghost use Rattle.im_io.specs.Shelf.{ShelfState};
ghost use Rattle.im_cmd_words.specs.Named.{IsInBounds, builds, dumps, evaluates};
ghost use Rattle.im_cmd_words.specs.Named.{evaluation_meaning};
ghost use Rattle.im_cmd_words.specs.Named.{executes, generates, options_meaning, reports, runs};
ghost use Rattle.im_cmd_words.specs.Named.{upgrades};
ghost use Rattle.im_cmd.specs.Answers.{CarriesOut};

use crate::building::{build, compile_source};
use crate::evaluated::tell_evaluation;
use crate::evaluating::evaluate;
use crate::generated::tell_generation;
use crate::generating::generate;
use crate::running::run_image;
use crate::stored::read_stored;
use crate::telling::{finish, send_built, send_report_of, tell_refusal, tell_run};
use crate::upgrading::upgrade_file;
use im_cmd_lines::{send_dump_lines, send_upgrade_line};
use im_cmd_words::{BuildOptions, EvalOptions, RunOptions};
use im_io::{Shelf, Sink};
use std::alloc::Global;

/// Builds a source and stores its image. `out` gets the lines of the build.
pub fn build_source<H: Shelf, O: Sink, E: Sink>(
    alloc: Global,
    shelf: &mut H,
    out: &mut O,
    err: &mut E,
    source: &str,
    image_name: &str,
    building: BuildOptions,
) -> u8
    requires { IsInBounds building }
    ensures { CarriesOut (builds source.now image_name.now building) (H.state shelf.old)
        (H.state shelf.new) (O.state out.old) (O.state out.new) (E.state err.old) (E.state err.new)
        result }
{
    match build(alloc, shelf, source, image_name, building) {
        Ok(built) => {
            let sent = send_built(out, &built);
            finish(err, sent)
        }
        Err(refusal) => tell_refusal(err, &refusal),
    }
}

/// Builds a source, stores its image, and runs it. `out` gets the run's output, and `err` the lines
/// of the build and of the run.
pub fn run_source<'a, H: Shelf, O: Sink, E: Sink>(
    alloc: Global,
    shelf: &mut H,
    out: &mut O,
    err: &mut E,
    source: &str,
    image_name: &'a str,
    building: BuildOptions,
    options: RunOptions<'a>,
) -> u8
    requires { IsInBounds building }
    ensures { CarriesOut (runs source.now image_name.now building (options_meaning options.entry))
        (H.state shelf.old) (H.state shelf.new) (O.state out.old) (O.state out.new)
        (E.state err.old) (E.state err.new) result }
{
    let built = match build(alloc, shelf, source, image_name, building) {
        Ok(built) => built,
        Err(refusal) => return tell_refusal(err, &refusal),
    };
    match run_image(alloc, shelf, image_name, &built.image, options, None) {
        Ok(run) => tell_run(out, err, &built.image, Some(&built), &run),
        Err(refusal) => tell_refusal(err, &refusal),
    }
}

/// Runs an image, from the memory of the file that is named for it where one is. `out` gets the
/// run's output, and `err` the lines of the run.
pub fn execute<'a, H: Shelf, O: Sink, E: Sink>(
    alloc: Global,
    shelf: &mut H,
    out: &mut O,
    err: &mut E,
    image_name: &'a str,
    options: RunOptions<'a>,
    resume: Option<&'a str>,
) -> u8
    ensures { CarriesOut (executes image_name.now (options_meaning options.entry)
        (option_map (λ file. file.now) resume.entry)) (H.state shelf.old) (H.state shelf.new)
        (O.state out.old) (O.state out.new) (E.state err.old) (E.state err.new) result }
{
    let image = match read_stored(alloc, shelf, image_name) {
        Ok(image) => image,
        Err(refusal) => return tell_refusal(err, &refusal),
    };
    match run_image(alloc, shelf, image_name, &image, options, resume) {
        Ok(run) => tell_run(out, err, &image, None, &run),
        Err(refusal) => tell_refusal(err, &refusal),
    }
}

/// Shows what an image holds. `out` gets the lines.
pub fn dump<H: Shelf, O: Sink, E: Sink>(
    alloc: Global,
    shelf: &mut H,
    out: &mut O,
    err: &mut E,
    image_name: &str,
) -> u8
    ensures { CarriesOut (dumps image_name.now) (H.state shelf.old) (H.state shelf.new)
        (O.state out.old) (O.state out.new) (E.state err.old) (E.state err.new) result }
{
    match read_stored(alloc, shelf, image_name) {
        Ok(image) => {
            let sent = send_dump_lines(out, &image);
            finish(err, sent)
        }
        Err(refusal) => tell_refusal(err, &refusal),
    }
}

/// Stores an image or a memory in version 2 under another name. `out` gets the line of the upgrade.
pub fn upgrade<H: Shelf, O: Sink, E: Sink>(
    alloc: Global,
    shelf: &mut H,
    out: &mut O,
    err: &mut E,
    old: &str,
    new: &str,
) -> u8
    ensures { CarriesOut (upgrades old.now new.now) (H.state shelf.old) (H.state shelf.new)
        (O.state out.old) (O.state out.new) (E.state err.old) (E.state err.new) result }
{
    match upgrade_file(alloc, shelf, old, new) {
        Ok(version) => {
            let sent = send_upgrade_line(out, version);
            finish(err, sent)
        }
        Err(refusal) => tell_refusal(err, &refusal),
    }
}

/// Builds a source and tells what was built; nothing is stored. `out` gets the lines.
pub fn report<H: Shelf, O: Sink, E: Sink>(
    alloc: Global,
    shelf: &mut H,
    out: &mut O,
    err: &mut E,
    source: &str,
    building: BuildOptions,
) -> u8
    requires { IsInBounds building }
    ensures { CarriesOut (reports source.now building) (H.state shelf.old) (H.state shelf.new)
        (O.state out.old) (O.state out.new) (E.state err.old) (E.state err.new) result }
{
    match compile_source(alloc, shelf, source, building) {
        Ok(built) => {
            let sent = send_report_of(out, &built);
            finish(err, sent)
        }
        Err(refusal) => tell_refusal(err, &refusal),
    }
}

/// Builds a source, stores nothing, and evaluates what it means with the frames of that build.
/// `out` gets the output, and `err` the frames, how it ended and the variables.
pub fn evaluate_source<H: Shelf, O: Sink, E: Sink>(
    alloc: Global,
    shelf: &mut H,
    out: &mut O,
    err: &mut E,
    source: &str,
    building: BuildOptions,
    options: EvalOptions<'_>,
) -> u8
    requires { IsInBounds building }
    ensures { CarriesOut (evaluates source.now building (evaluation_meaning options.entry))
        (H.state shelf.old) (H.state shelf.new) (O.state out.old) (O.state out.new)
        (E.state err.old) (E.state err.new) result }
{
    match evaluate(alloc, shelf, source, building, options) {
        Ok(evaluation) => tell_evaluation(out, err, &evaluation, options.vars),
        Err(refusal) => tell_refusal(err, &refusal),
    }
}

/// Builds the made source of so many functions, and runs its image under periods that all commit;
/// no file is touched. `out` gets the line of the run.
pub fn generate_and_run<O: Sink, E: Sink>(alloc: Global, out: &mut O, err: &mut E, count: u32) -> u8
    ensures { (shelf : ShelfState) → CarriesOut (generates count) shelf shelf (O.state out.old)
        (O.state out.new) (E.state err.old) (E.state err.new) result }
{
    match generate(alloc, count) {
        Ok(machine) => tell_generation(out, err, count, &machine),
        Err(refusal) => tell_refusal(err, &refusal),
    }
}
