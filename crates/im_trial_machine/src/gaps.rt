use crate::words::words_of;
use im_gap::{gap, longest_gap};
use im_rv::Code;
use im_trial::{Case, Row, Stop, Texts};
use std::alloc::Global;

/// `gap`, a name, an entry, code words: the longest gap, if there is one.
pub(crate) fn longest(texts: &Texts, row: &Row<'_>, case: &mut Case) {
    let words = words_of(texts, row, 3, case);
    case.show(words.len());
    let code = Code {
        words,
        entry: case.hex(row.field(2)),
        cuts: Vec::new(case.alloc),
    };
    tell_gap(&code, case);
}

/// Tells the longest gap of a code.
pub(crate) fn tell_gap(code: &Code, case: &mut Case) {
    if code.words.len() > 261120 {
        case.end(Stop::Row);
        return;
    }
    match longest_gap(case.alloc, code) {
        Ok(Some(longest)) => case.show(longest),
        Ok(None) => case.say(" none"),
        Err(_) => case.end(Stop::Memory),
    }
}

// The gap of a call within a call.
fn gap_of_calls(alloc: Global) -> Result<u32, Stop> {
    let words = [
        0x00c000ef, 0x01c001ef, 0x00100073, 0x00c000ef, 0x010001ef, 0x00008067, 0x00000013,
        0x00008067, 0x00402023, 0x00018067,
    ];
    let code = Code {
        words: Vec::from_slice(alloc, &words)?,
        entry: 0x1000,
        cuts: Vec::new(alloc),
    };
    Ok(gap(alloc, &code)?)
}

/// The gap of a call within a call.
pub(crate) fn a_call_within_a_call(case: &mut Case) {
    let alloc = case.alloc;
    if let Some(gap) = case.take(gap_of_calls(alloc)) {
        case.show(gap);
    }
}
