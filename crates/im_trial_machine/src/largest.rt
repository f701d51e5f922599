use crate::gaps::tell_gap;
use crate::pages::tell_cuts;
use crate::parts::largest_parts;
use im_link::link;
use im_rv::Code;
use im_trial::{Case, Stop};
use std::alloc::Global;

// The number of words, the entry, the last eight words, the number of cuts and the last three.
fn tell_code(code: &Code, case: &mut Case) {
    case.show(code.words.len());
    case.say(", entry");
    case.word(code.entry);
    case.say(",");
    for word in code.words.iter().skip(code.words.len().saturating_sub(8)) {
        case.word(*word);
    }
    case.say(", cuts");
    case.show(code.cuts.len());
    let first = code.cuts.len().saturating_sub(3);
    tell_cuts(code.cuts.get(first..).unwrap_or(&[]), case);
}

fn linked(alloc: Global) -> Result<Code, Stop> {
    let parts = largest_parts(alloc)?;
    match link(alloc, &parts) {
        Ok(code) => Ok(code),
        Err(_) => Err(Stop::Row),
    }
}

/// The largest code: its gap, its words, its entry, its last words and its last cuts.
pub(crate) fn the_largest_code(case: &mut Case) {
    let alloc = case.alloc;
    if let Some(code) = case.take(linked(alloc)) {
        tell_gap(&code, case);
        tell_code(&code, case);
    }
}
