//! Trials of what stands between the compiler and the world, each a row of a table: the words of a
//! command, the lines that are told, files and streams.
#![tactic(auto)]

mod command_lines;
mod files;
mod host;
mod images;
mod kinds;
mod lines;
mod refusals;
mod reports;

use im_trial::{Stop, run_tables};
use kinds::Outside;

/// The tables, in the order in which they are run.
const TABLES: [&str; 3] = ["words", "lines", "files"];

fn main(rt: HostRuntime) -> Result<(), Stop> {
    run_tables(&rt, &Outside, &TABLES)
}
