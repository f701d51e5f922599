ghost use Rattle.std.specs.Prelude.{◌≡◌, OnOk};
ghost use Rattle.im_print_parts.specs.Output.{Writes};
ghost use Rattle.im_print_parts.specs.Parts as parts;

use crate::put_mark;
use im_num::NoMemory;
use im_tok::Punctuator;

/// Writes the comma before an item of a list, where one stands before it.
pub fn put_comma_if(out: &mut Vec<u8>, behind: bool) -> Result<(), NoMemory>
    ensures { OnOk result (Writes out.old.items out.new.items (parts.comma_words behind)) }
{
    if behind {
        return put_mark(out, Punctuator::Comma);
    }
    Ok(())
}
