ghost use Rattle.std.specs.Prelude.{◌≡◌, length, option_map, IfSome};
ghost use Rattle.im_io.specs.Whole.{Sends};
ghost use Rattle.im_cmd_lines.specs.Refusals.{refusal_line, refused_of};
ghost use Rattle.im_device.specs.Shows.{output_of};
ghost use Rattle.im_cmd.specs.Outcome.{Got, Tells, built_lines, done, ending, ending_status};
ghost use Rattle.im_cmd.specs.Outcome.{refusal_status, report_with, reported_lines, run_report};
ghost use Rattle.im_cmd.specs.Outcome.{shown_lines};
ghost use Rattle.im_cmd.specs.Stages.{Finishes, ended_of, variables_of};

use crate::running::Run;
use crate::status::{DONE, UNWRITABLE, status_of_ending, status_of_refusal};
use im_cmd_lines::{
    Ending, Refusal, send_build_lines, send_refusal_line, send_report_lines, send_run_lines,
    send_variable_lines,
};
use im_driver::Built;
use im_image::Image;
use im_io::{Failed, Sink, send};
use im_num::Var;

/// Sends a refusal's line to `err`, and gives the exit status.
pub fn tell_refusal<E: Sink>(err: &mut E, refusal: &Refusal) -> u8
    ensures status { result ≡ refusal_status (refused_of refusal.now) }
    ensures err { Got (refusal_line (refused_of refusal.now)) (E.state err.old) (E.state err.new) }
{
    let _ = send_refusal_line(err, refusal);
    status_of_refusal(refusal)
}

/// The exit status of a command whose output was sent, or wasn't, which `err` is then told.
pub fn finish<E: Sink>(err: &mut E, sent: Result<(), Failed>) -> u8
    ensures { Finishes sent (E.state err.old) (E.state err.new) result }
{
    match sent {
        Ok(()) => DONE,
        Err(Failed) => {
            let _ = send(err, b"intermit: cannot write output\n");
            UNWRITABLE
        }
    }
}

// Words of an image's code.
fn word_count(image: &Image) -> u32
    ensures { result ≡ length image.now.words }
{
    image.words.len() as u32
}

// Bytes of an image's statics.
fn static_count(image: &Image) -> u32
    ensures { result ≡ length image.now.statics }
{
    image.statics.len() as u32
}

/// Sends the lines of a build.
pub fn send_built<S: Sink>(sink: &mut S, built: &Built) -> Result<(), Failed>
    ensures { Sends (built_lines built.now) result (S.state sink.old) (S.state sink.new) }
{
    send_build_lines(
        sink,
        word_count(&built.image),
        built.gap,
        &built.frames.frames,
    )
}

/// Sends the lines of a report.
pub fn send_report_of<S: Sink>(sink: &mut S, built: &Built) -> Result<(), Failed>
    ensures { Sends (reported_lines built.now) result (S.state sink.old) (S.state sink.new) }
{
    send_report_lines(
        sink,
        word_count(&built.image),
        built.gap,
        static_count(&built.image),
        &built.frames.frames,
        &built.cuts,
    )
}

// How a run ended.
fn ending_of(run: &Run) -> Ending
    ensures { result ≡ ending (ended_of run.now.machine) }
{
    Ending::of(run.machine.went(), run.machine.reason())
}

// Sends the lines of the variables, where they are to be shown.
fn send_shown<S: Sink>(
    err: &mut S,
    image: &Image,
    variables: &Option<Vec<Var>>,
) -> Result<(), Failed>
    ensures { Sends (shown_lines image.now (variables_of (λ vars. vars.items) variables.now)) result
        (S.state err.old) (S.state err.new) }
{
    match variables {
        Some(variables) => send_variable_lines(err, &image.objects, variables),
        None => Ok(()),
    }
}

// Sends how a run ended, and the variables that it left.
fn send_run_report<S: Sink>(err: &mut S, image: &Image, run: &Run) -> Result<(), Failed>
    ensures { Sends (run_report image.now (ended_of run.now.machine)
        (variables_of (λ vars. vars.items) run.now.variables)) result (S.state err.old)
        (S.state err.new) }
{
    let machine = &run.machine;
    match send_run_lines(
        err,
        ending_of(run),
        machine.status(),
        machine.commits(),
        machine.instructions(),
    ) {
        Ok(()) => {}
        Err(fault) => return Err(fault),
    }
    send_shown(err, image, &run.variables)
}

// Sends the lines of the build, where there was one, and then those of the run.
fn send_report<S: Sink>(
    err: &mut S,
    image: &Image,
    built: Option<&Built>,
    run: &Run,
) -> Result<(), Failed>
    ensures { Sends (report_with (option_map (λ b. b.now) built.entry) image.now
        (ended_of run.now.machine) (variables_of (λ vars. vars.items) run.now.variables)) result
        (S.state err.old) (S.state err.new) }
{
    match built {
        Some(built) => match send_built(err, built) {
            Ok(()) => send_run_report(err, image, run),
            Err(fault) => Err(fault),
        },
        None => send_run_report(err, image, run),
    }
}

/// Sends the output of a run to `out` and its report to `err`, and gives the exit status.
pub fn tell_run<O: Sink, E: Sink>(
    out: &mut O,
    err: &mut E,
    image: &Image,
    built: Option<&Built>,
    run: &Run,
) -> u8
    ensures { Tells (O.state out.old) (O.state out.new) (E.state err.old) (E.state err.new)
        (done (output_of run.now.machine.form (ended_of run.now.machine).mem)
        (report_with (option_map (λ b. b.now) built.entry) image.now (ended_of run.now.machine)
        (variables_of (λ vars. vars.items) run.now.variables))
        (ending_status (ending (ended_of run.now.machine)))) result }
{
    match send(out, run.machine.output()) {
        Ok(()) => {}
        Err(Failed) => {
            let _ = send(err, b"intermit: cannot write output\n");
            return UNWRITABLE;
        }
    }
    match send_report(err, image, built, run) {
        Ok(()) => status_of_ending(ending_of(run)),
        Err(Failed) => UNWRITABLE,
    }
}
