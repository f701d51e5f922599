//! Three images that meet the premises of the replay theorem: a loop of one cut, whose longest gap is known, a counter in memory, and one that writes output.
#![tactic(auto)]

mod gap;
mod laws;
mod output;

pub use gap::{loop_gap_law, loop_placed_law, loop_progresses_law};
pub use laws::{counter_law, counter_replays_law, counter_shows_law, loop_law};
pub use output::{writer_byte_law, writer_law, writer_output_law, writer_shows_law};
