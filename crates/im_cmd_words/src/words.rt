ghost use Rattle.std.specs.Prelude.{◌≡◌, ◌≢◌, IfOk, IfErr, Some, None, map};
ghost use Rattle.std.specs.String.{string_bytes};
ghost use Rattle.clap.specs.Words.{kind_of};
ghost use Rattle.im_cmd_words.specs.Named.{HasBounds, IsUsage, meaning, named};

use crate::matched::matched_command;
use crate::table::command_table;
use crate::{Command, WordsFault};
use clap::error::ErrorKind;
use std::alloc::Global;

/// What clap lets through and the table doesn't: a number with a sign or a zero before it.
const NUMBER_FORM: &str = "error: a number has no sign and no zero before it\n";

/// The fault of words that clap refuses: its text, or that memory ran out.
fn refusal(alloc: Global, error: clap::Error) -> WordsFault
    ensures { IsUsage result → kind_of error ≢ ErrorKind.OutOfMemory }
{
    if error.kind() == ErrorKind::OutOfMemory {
        return WordsFault::OutOfMemory;
    }
    match error.to_string(alloc) {
        Ok(text) => WordsFault::Usage(text),
        Err(_) => WordsFault::OutOfMemory,
    }
}

/// The command that the words name, the first of them being the program's own name.
///
/// `Usage` is answered only where the words name none, or ask for help.
pub fn read_words<'a>(alloc: Global, words: &'a [String]) -> Result<Command<'a>, WordsFault>
    ensures named { IfOk result (λ c. named (map string_bytes words.now) ≡ Some (meaning c)) }
    ensures bounds { IfOk result HasBounds }
    ensures refused { IfErr result (λ e. IsUsage e → named (map string_bytes words.now) ≡ None) }
{
    let table = command_table(alloc)?;
    match table.try_get_matches_from(words) {
        Ok(matches) => match matched_command(&matches) {
            Some(command) => Ok(command),
            None => Err(WordsFault::Usage(NUMBER_FORM.to_string(alloc)?)),
        },
        Err(error) => Err(refusal(alloc, error)),
    }
}
