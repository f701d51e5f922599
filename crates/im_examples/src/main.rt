//! Evaluates the examples and runs their images; carries out commands while each outside call fails.
#![tactic(auto)]

mod example;
mod failing;
mod meaning;
mod power;

use example::EXAMPLES;
use std::io;

/// The output that an example should have, and another one.
fn verdict(is_right: bool) -> &'static str {
    if is_right {
        "as its file says"
    } else {
        "otherwise"
    }
}

fn main(rt: HostRuntime) -> io::Result<()> {
    for example in &EXAMPLES {
        let meaning = verdict(meaning::is_right(&rt, example)?);
        let run = power::runs_of(&rt, example)?;
        println!(rt;
            "{}: its meaning {meaning}, its run {}, its run in periods of its gap {}",
            example.source,
            verdict(run.whole),
            verdict(run.in_periods),
        )?;
    }
    failing::carry_out_commands(&rt)
}
