use im_cmd_words::{WordsFault, read_words};
use im_trial::{Case, Row, Stop};
use std::alloc::Global;

fn words_of(alloc: Global, text: &str) -> Result<Vec<String>, Stop> {
    let mut words = Vec::new(alloc);
    for word in text.split(' ') {
        words.push(String::from_str(alloc, word)?)?;
    }
    Ok(words)
}

fn tell_words(words: &[String], case: &mut Case) {
    match read_words(case.alloc, words) {
        Ok(command) => case.debug(&command),
        Err(WordsFault::Usage(text)) => case.say(if text.is_empty() {
            " no usage text"
        } else {
            " a usage text"
        }),
        Err(WordsFault::OutOfMemory) => case.say(" no memory"),
    }
}

/// `command-line`, words with a blank between two: the command that they name, or that a usage text
/// is told.
pub(crate) fn command_line(row: &Row<'_>, case: &mut Case) {
    let made = words_of(case.alloc, row.name());
    if let Some(words) = case.take(made) {
        tell_words(words.as_slice(), case);
    }
}
