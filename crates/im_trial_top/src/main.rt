//! Trials of the whole compiler: sources, their meanings and their runs, and commands, each a row
//! of a table.
#![tactic(auto)]

mod blocks;
mod commands;
mod faults;
mod kinds;
mod losses;
mod meanings;
mod outcomes;
mod programs;
mod shelves;
mod sources;
mod typed;
mod units;

use im_trial::{Stop, run_tables};
use kinds::Top;

/// The tables, in the order in which they are run.
const TABLES: [&str; 5] = ["programs", "sources", "typed", "meanings", "commands"];

fn main(rt: HostRuntime) -> Result<(), Stop> {
    run_tables(&rt, &Top, &TABLES)
}
