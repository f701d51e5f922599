use im_tok::text_bytes;
use im_trial::{Case, Stop};
use std::alloc::Global;

// The bytes of a string literal with an escape.
fn string_bytes(alloc: Global) -> Result<Vec<u8>, Stop> {
    Ok(text_bytes(alloc, b"\"a\\n\"")?)
}

/// The bytes of a string literal with an escape.
pub(crate) fn string(case: &mut Case) {
    let alloc = case.alloc;
    if let Some(bytes) = case.take(string_bytes(alloc)) {
        case.bytes(&bytes);
    }
}
