ghost use Rattle.std.specs.Prelude.{◌≡◌, ◌+◌, ◌*◌, ◌<◌, ◌≤◌, length, take, drop, IfOk, IfErr};
ghost use Rattle.im_image.specs.declared.fault.ImageFault.TheVariants.{ShortImage, OutOfMemory};
ghost use Rattle.im_image.specs.Faults.{word_at as word_of, words_at};

use crate::fault::ImageFault;
use std::alloc::Global;

/// The bytes are fewer than a field wants.
pub fn short(bytes: &[u8]) -> ImageFault
    ensures { result ≡ ShortImage (length bytes.now) }
{
    ImageFault::ShortImage(bytes.len() as u64)
}

/// The word whose first byte stands at a place.
#[tactic(auto, unfolding(crate::specs::Faults::word_at))]
pub fn word_at(bytes: &[u8], place: usize) -> Result<u32, ImageFault>
    requires { place ≤ length bytes.now }
    ensures there { IfOk result (λ _. place + 4 ≤ length bytes.now) }
    ensures word { IfOk result (λ word. word ≡ word_of bytes.now place) }
    ensures ends { IfErr result (λ _. length bytes.now < place + 4) }
    ensures fault { IfErr result (λ fault. fault ≡ ShortImage (length bytes.now)) }
{
    let rest = &bytes[place..];
    if rest.len() < 4 {
        return Err(short(bytes));
    }
    Ok(u32::from_le_bytes([rest[0], rest[1], rest[2], rest[3]]))
}

/// So many words from a place on, which are there.
pub fn read_words(
    alloc: Global,
    bytes: &[u8],
    count: u32,
    place: usize,
) -> Result<Vec<u32>, ImageFault>
    requires { place + 4 * count ≤ length bytes.now }
    ensures words { IfOk result (λ words. words.items ≡ words_at bytes.now count place) }
    ensures memory { IfErr result (λ fault. fault ≡ OutOfMemory) }
{
    let mut words = Vec::new(alloc);
    let mut at = place;
    for _ in 0..count {
        words.push(word_at(bytes, at)?)?;
        at += 4;
    }
    Ok(words)
}
