use im_num::word_at;
use im_trial::{Case, Row, Stop, Texts};
use std::alloc::Global;

// The words of bytes, each with its lowest byte first.
fn words_in(alloc: Global, bytes: &[u8]) -> Result<Vec<u32>, Stop> {
    let mut words = Vec::new(alloc);
    for number in 0..bytes.len() / 4 {
        if let Some(word) = word_at(bytes, number * 4) {
            words.push(word)?;
        }
    }
    Ok(words)
}

/// The words of the bytes of a field.
pub(crate) fn words_of(texts: &Texts, row: &Row<'_>, number: usize, case: &mut Case) -> Vec<u32> {
    let alloc = case.alloc;
    let bytes = case.bytes_of(texts, row, number);
    match case.take(words_in(alloc, &bytes)) {
        Some(words) => words,
        None => Vec::new(alloc),
    }
}
