//! Block code and placed code made by hand, by tables: what each pass makes of it, and its runs
//! under losses of power.
#![tactic(auto)]

mod assembling;
mod building;
mod code;
mod fault;
mod forcing;
mod frames;
mod kinds;
mod losses;
mod numbers;
mod placed;
mod placing;
mod recutting;
mod selecting;
mod spelling;
mod statics;
mod unplaced;
mod words;

use im_trial::{Stop, run_tables};
use kinds::Middle;

/// The tables, in the order in which they are run.
const TABLES: [&str; 3] = ["passes", "placed", "selected"];

fn main(rt: HostRuntime) -> Result<(), Stop> {
    run_tables(&rt, &Middle, &TABLES)
}
