ghost use Rattle.std.specs.Prelude.{◌≡◌};
ghost use Rattle.im_io.specs.Whole.{Sends};
ghost use Rattle.im_keeps.specs.Keeps.{output_in};
ghost use Rattle.im_eval_machine.specs.Endings.{told};
ghost use Rattle.im_cmd.specs.Outcome.{Tells};
ghost use Rattle.im_cmd.specs.Evaluations.{evaluated_by, evaluation_outcome, evaluation_report};
ghost use Rattle.im_cmd.specs.Evaluations.{evaluation_status, shown_at_end};

use crate::evaluating::Evaluation;
use crate::status::{DONE, OUT_OF_FUEL, STACK_EXHAUSTED, UNDEFINED, UNWRITABLE};
use im_cmd_lines::{Evaluated, send_evaluation_lines, send_variable_lines};
use im_driver::Built;
use im_eval::{Outcome, Reason};
use im_io::{Failed, Sink, send};

// How an evaluation ended.
fn evaluated_of(outcome: &Outcome) -> Evaluated
    ensures { result ≡ evaluated_by (told outcome.now) }
{
    match outcome {
        Outcome::Undefined(why) => Evaluated::Undefined(*why),
        Outcome::More { .. } => Evaluated::OutOfFuel,
        Outcome::End { reason, status, .. } => match reason {
            Reason::Returned => Evaluated::Returned(*status),
            Reason::StackExhausted => Evaluated::StackExhausted,
        },
    }
}

// The exit status of an evaluation.
fn status_of_outcome(outcome: &Outcome) -> u8
    ensures { result ≡ evaluation_status (told outcome.now) }
{
    match outcome {
        Outcome::Undefined(_) => UNDEFINED,
        Outcome::More { .. } => OUT_OF_FUEL,
        Outcome::End { reason, .. } => match reason {
            Reason::Returned => DONE,
            Reason::StackExhausted => STACK_EXHAUSTED,
        },
    }
}

// What was written, also where fuel ran out; nothing where it is undefined.
fn output_of(outcome: &Outcome) -> &[u8]
    ensures { result.now ≡ output_in (told outcome.now) }
{
    match outcome {
        Outcome::Undefined(_) => b"",
        Outcome::More { output } => output,
        Outcome::End { output, .. } => output,
    }
}

// Sends the lines of the variables, where there are some and they are to be shown.
fn send_shown<S: Sink>(
    sink: &mut S,
    built: &Built,
    outcome: &Outcome,
    vars: bool,
) -> Result<(), Failed>
    ensures { Sends (shown_at_end built.now vars (told outcome.now)) result (S.state sink.old)
        (S.state sink.new) }
{
    if !vars {
        return Ok(());
    }
    match outcome {
        Outcome::Undefined(_) => Ok(()),
        Outcome::More { .. } => Ok(()),
        Outcome::End { variables, .. } => {
            send_variable_lines(sink, &built.image.objects, variables)
        }
    }
}

// Sends the frames, how the evaluation ended, and the variables.
fn send_report<S: Sink>(sink: &mut S, evaluation: &Evaluation, vars: bool) -> Result<(), Failed>
    ensures { Sends (evaluation_report evaluation.now.built vars (told evaluation.now.outcome))
        result (S.state sink.old) (S.state sink.new) }
{
    let built = &evaluation.built;
    let outcome = &evaluation.outcome;
    match send_evaluation_lines(sink, &built.frames.frames, evaluated_of(outcome)) {
        Ok(()) => send_shown(sink, built, outcome, vars),
        Err(fault) => Err(fault),
    }
}

/// Sends the output of an evaluation to `out` and its report to `err`, and gives the exit status.
pub fn tell_evaluation<O: Sink, E: Sink>(
    out: &mut O,
    err: &mut E,
    evaluation: &Evaluation,
    vars: bool,
) -> u8
    ensures { Tells (O.state out.old) (O.state out.new) (E.state err.old) (E.state err.new)
        (evaluation_outcome evaluation.now.built vars (told evaluation.now.outcome)) result }
{
    match send(out, output_of(&evaluation.outcome)) {
        Ok(()) => {}
        Err(Failed) => {
            let _ = send(err, b"intermit: cannot write output\n");
            return UNWRITABLE;
        }
    }
    match send_report(err, evaluation, vars) {
        Ok(()) => status_of_outcome(&evaluation.outcome),
        Err(Failed) => UNWRITABLE,
    }
}
