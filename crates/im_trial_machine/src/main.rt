//! Words, images, machines and linked code by tables: each case through the call that it is about.
#![tactic(auto)]

mod gaps;
mod images;
mod instructions;
mod kinds;
mod largest;
mod lines;
mod machines;
mod memories;
mod numbers;
mod pages;
mod parts;
mod periods;
mod routines;
mod saved;
mod sections;
mod survivals;
mod values;
mod words;

use im_trial::{Stop, run_tables};
use kinds::Device;

/// The tables, in the order in which they are run.
const TABLES: [&str; 5] = ["words", "images", "machines", "code", "losses"];

fn main(rt: HostRuntime) -> Result<(), Stop> {
    run_tables(&rt, &Device, &TABLES)
}
