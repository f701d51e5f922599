use super::files::{File, files_of, with_room};
use super::outcome::{Failing, Outcome, Outside, carry_out};
use super::telling::{failed_text, whole_text};
use std::alloc::Global;
use std::io;

/// More calls than any command here makes.
const MOST_CALLS: u64 = 1000;

/// Rooms in bytes that are too small for an image or a memory.
const ROOMS: [usize; 2] = [0, 20];

/// A command over files, and what comes of it without a failure.
#[derive(Clone, Copy)]
struct Trial<'a> {
    files: &'a [File],
    command: &'a str,
    whole: &'a Outcome,
}

fn told(alloc: Global, trial: &Trial<'_>, found: &Outcome) -> io::Result<String> {
    Ok(failed_text(alloc, trial.files, trial.whole, found)?)
}

/// Lets each call fail in turn until none does, and tells what comes of it where that differs from
/// the call before.
fn each_call_fails(rt: &HostRuntime, trial: &Trial<'_>, outside: Outside) -> io::Result<()> {
    let alloc = rt.alloc();
    let mut last = String::new(alloc);
    for number in 1..MOST_CALLS {
        let failing = Failing::call(outside, number);
        let found = carry_out(alloc, trial.files, trial.command, failing)?;
        if found.is_without_fault() {
            return Ok(());
        }
        let text = told(alloc, trial, &found)?;
        if text != last {
            println!(rt; "  {} {number}: {text}", outside.name())?;
            last = text;
        }
    }
    Ok(())
}

/// Lets files have too little room.
fn each_room_fails(rt: &HostRuntime, trial: &Trial<'_>) -> io::Result<()> {
    let alloc = rt.alloc();
    for room in ROOMS {
        let files = with_room(alloc, trial.files, room)?;
        let found = carry_out(alloc, &files, trial.command, Failing::nothing())?;
        if !found.is_without_fault() {
            let text = told(alloc, trial, &found)?;
            println!(rt; "  room {room}: {text}")?;
        }
    }
    Ok(())
}

/// Tries a command, each call failing in turn, and answers the files that it leaves without a
/// failure.
pub(super) fn fails_in_turn(
    rt: &HostRuntime,
    files: &[File],
    command: &str,
) -> io::Result<Vec<File>> {
    let alloc = rt.alloc();
    let whole = carry_out(alloc, files, command, Failing::nothing())?;
    println!(rt; "{command}: {}", whole_text(alloc, files, &whole)?)?;
    let trial = Trial {
        files,
        command,
        whole: &whole,
    };
    for outside in [Outside::Files, Outside::Out, Outside::Err] {
        each_call_fails(rt, &trial, outside)?;
    }
    each_room_fails(rt, &trial)?;
    Ok(files_of(alloc, files, &whole.shelf)?)
}
