ghost use Rattle.std.specs.Prelude.{◌≡◌, map, string_bytes, encode_utf8_all, IfOk};
ghost use Rattle.im_compile.specs.Made.{texts_of_names};

use im_num::NoMemory;
use std::alloc::Global;

/// A name as text, each byte a character.
fn text_of(alloc: Global, name: &[u8]) -> Result<String, NoMemory>
    ensures { IfOk result (λ text. string_bytes text ≡ encode_utf8_all name.now) }
{
    let mut text = String::new(alloc);
    for byte in name {
        text.push(char::from(*byte))?;
    }
    Ok(text)
}

/// Names as text, in their order.
pub(crate) fn texts_of(alloc: Global, names: &[Vec<u8>]) -> Result<Vec<String>, NoMemory>
    ensures { IfOk result (λ texts. map string_bytes texts.items ≡ texts_of_names names.now) }
{
    let mut texts = Vec::new(alloc);
    for name in names {
        texts.push(text_of(alloc, name)?)?;
    }
    Ok(texts)
}
