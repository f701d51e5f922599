use crate::lines::{sink, tell_sent};
use im_cmd_lines::{Evaluated, send_build_lines, send_evaluation_lines, send_report_lines};
use im_num::Cause;
use im_rv::Cut;
use im_store::Undefined;
use im_trial::{Case, Row, Stop};
use im_typed::Frame;
use std::alloc::Global;

// A function's frame: its name and its size.
fn frame_of(alloc: Global, text: &str) -> Result<Frame, Stop> {
    let (name, size) = text.split_once(' ').ok_or(Stop::Row)?;
    let size = size.parse::<u32>().map_err(|_| Stop::Row)?;
    let name = Vec::from_slice(alloc, name.as_bytes())?;
    Ok(Frame { name, size })
}

// Frames, with `,` between two.
fn frames_of(alloc: Global, text: &str) -> Result<Vec<Frame>, Stop> {
    let mut frames = Vec::new(alloc);
    for words in text.split(',') {
        frames.push(frame_of(alloc, words)?)?;
    }
    Ok(frames)
}

fn place_of(text: &str) -> Result<u32, Stop> {
    u32::from_str_radix(text, 16).map_err(|_| Stop::Row)
}

// A cause: `entry`, or the two places of a dependence.
fn cause_of(text: &str) -> Result<Cause, Stop> {
    if text == "entry" {
        return Ok(Cause::Entry);
    }
    let (read, write) = text.split_once('+').ok_or(Stop::Row)?;
    Ok(Cause::Dep {
        read: u64::from(place_of(read)?),
        write: u64::from(place_of(write)?),
    })
}

// A cut: a place, a function and a cause.
fn cut_of(alloc: Global, text: &str) -> Result<Cut, Stop> {
    let (at, rest) = text.split_once(' ').ok_or(Stop::Row)?;
    let (function, cause) = rest.split_once(' ').ok_or(Stop::Row)?;
    let at = place_of(at)?;
    let cause = cause_of(cause)?;
    let function = String::from_str(alloc, function)?;
    Ok(Cut {
        at,
        function,
        cause,
    })
}

// Cuts, with `,` between two.
fn cuts_of(alloc: Global, text: &str) -> Result<Vec<Cut>, Stop> {
    let mut cuts = Vec::new(alloc);
    for words in text.split(',') {
        cuts.push(cut_of(alloc, words)?)?;
    }
    Ok(cuts)
}

/// `build-lines`, a name, words, a gap, frames.
pub(crate) fn build_lines(row: &Row<'_>, case: &mut Case) {
    let words = case.small(row.field(2));
    let gap = case.small(row.field(3));
    let made = frames_of(case.alloc, row.field(4));
    let Some(frames) = case.take(made) else {
        return;
    };
    if let Some(mut sink) = sink(case) {
        let sent = send_build_lines(&mut sink, words, gap, &frames);
        tell_sent(sent, &sink, case);
    }
}

/// `report-lines`, a name, words, a gap, frames, statics, cuts.
pub(crate) fn report_lines(row: &Row<'_>, case: &mut Case) {
    let words = case.small(row.field(2));
    let gap = case.small(row.field(3));
    let statics = case.small(row.field(5));
    let made = frames_of(case.alloc, row.field(4));
    let Some(frames) = case.take(made) else {
        return;
    };
    let made = cuts_of(case.alloc, row.field(6));
    let Some(cuts) = case.take(made) else {
        return;
    };
    if let Some(mut sink) = sink(case) {
        let sent = send_report_lines(&mut sink, words, gap, statics, &frames, &cuts);
        tell_sent(sent, &sink, case);
    }
}

fn evaluated_of(text: &str, case: &mut Case) -> Evaluated {
    match text {
        "StackExhausted" => Evaluated::StackExhausted,
        "ZeroDivisor" => Evaluated::Undefined(Undefined::ZeroDivisor),
        "OutOfFuel" => Evaluated::OutOfFuel,
        _ => Evaluated::Returned(i128::from(case.number(text))),
    }
}

/// `evaluation-lines`, a name, frames, how the evaluation ends: a status, or a word.
pub(crate) fn evaluation_lines(row: &Row<'_>, case: &mut Case) {
    let evaluated = evaluated_of(row.field(3), case);
    let made = frames_of(case.alloc, row.field(2));
    let Some(frames) = case.take(made) else {
        return;
    };
    if let Some(mut sink) = sink(case) {
        let sent = send_evaluation_lines(&mut sink, &frames, evaluated);
        tell_sent(sent, &sink, case);
    }
}
