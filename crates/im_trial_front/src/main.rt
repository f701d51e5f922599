//! Tokens, trees and types by tables: each case through the call of the front end that it is about.
#![tactic(auto)]

mod faults;
mod kinds;
mod lexical;
mod literals;
mod nesting;
mod numbered;
mod parsing;
mod readings;
mod specifiers;
mod types;
mod words;

use im_trial::{Stop, run_tables};
use kinds::Front;

/// The tables, in the order in which they are run.
const TABLES: [&str; 4] = ["tokens", "parsing", "printing", "types"];

fn main(rt: HostRuntime) -> Result<(), Stop> {
    run_tables(&rt, &Front, &TABLES)
}
