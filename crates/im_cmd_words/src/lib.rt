// The words of the command line, read as the command that they name.
#![tactic(auto)]

mod command;
mod fault;
mod laws;
mod matched;
mod number;
mod table;
mod words;

pub use command::{BuildOptions, Command, EvalOptions, RunOptions};
pub use fault::WordsFault;
pub use laws::{
    building_law, evaluation_law, faultless_law, files_law, generation_law, memories_law,
    options_law, words_refused_law, words_taken_law,
};
pub use words::read_words;
