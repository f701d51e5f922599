// The lines that the commands print, each sent to a sink piece by piece from fixed buffers.
#![tactic(auto)]

mod builds;
mod dumps;
mod ending;
mod evaluations;
mod generations;
mod instruction;
mod memory_fault;
mod numerals;
mod refusal;
mod reports;
mod runs;
mod source_fault;
mod upgrades;
mod variables;

pub use builds::send_build_lines;
pub use dumps::send_dump_lines;
pub use ending::Ending;
pub use evaluations::{Evaluated, send_evaluation_lines};
pub use generations::send_generation_line;
pub use instruction::send_instruction;
pub use refusal::{Refusal, send_refusal_line};
pub use reports::send_report_lines;
pub use runs::{send_ending_line, send_run_lines};
pub use upgrades::send_upgrade_line;
pub use variables::send_variable_lines;
