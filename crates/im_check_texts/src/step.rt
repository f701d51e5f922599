ghost use Rattle.std.specs.Prelude.{◌≡◌, ◌++◌, ◌∷◌, [], OnOk};
ghost use Rattle.im_check_texts.specs.Texts.{texts_in};

use im_num::NoMemory;
use std::alloc::Global;

/// Appends one string literal.
pub(crate) fn append_one(
    alloc: Global,
    bytes: &[u8],
    texts: &mut Vec<Vec<u8>>,
) -> Result<(), NoMemory>
    ensures { OnOk result (texts_in texts.new.items ≡ texts_in texts.old.items ++ bytes.now ∷ []) }
{
    let text = Vec::from_slice(alloc, bytes)?;
    texts.push(text)?;
    Ok(())
}
