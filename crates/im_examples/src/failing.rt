mod files;
mod outcome;
mod telling;
mod trial;

use files::first_files;
use std::{fs, io};
use trial::fails_in_turn;

/// Carries out each command of a table, over the files that the ones before it left, and again with
/// each call of the files, of `out` and of `err` failing in turn; tells what comes of it.
pub(crate) fn carry_out_commands(rt: &HostRuntime) -> io::Result<()> {
    let commands = fs::read_to_string(rt, "failing/commands")?;
    let mut files = first_files(rt)?;
    for command in commands.lines() {
        files = fails_in_turn(rt, &files, command)?;
    }
    Ok(())
}
