use crate::faults::tell_fault;
use im_fault::{LineFault, SourceFault};
use im_front::read_source;
use im_num::NoMemory;
use im_print::print_tree;
use im_trial::{Case, Row, Texts};
use std::alloc::Global;

// What a source is printed as.
fn text_of(alloc: Global, source: &[u8]) -> Result<Vec<u8>, SourceFault> {
    let text = read_source(alloc, source)?;
    match print_tree(alloc, &text.tree) {
        Ok(bytes) => Ok(bytes),
        Err(NoMemory::OutOfMemory) => Err(SourceFault::OutOfMemory),
    }
}

/// How many external declarations a text has.
fn count(alloc: Global, text: &[u8]) -> Result<usize, SourceFault> {
    let text = read_source(alloc, text)?;
    Ok(text.tree.externals.len())
}

/// `printed`, a source: what it is printed as.
pub(crate) fn printed(texts: &Texts, row: &Row<'_>, case: &mut Case) {
    let source = case.bytes_of(texts, row, 1);
    match text_of(case.alloc, &source) {
        Ok(bytes) => case.bytes(&bytes),
        Err(fault) => tell_fault(fault, case),
    }
}

/// `printed-as`, a name, a source, a text: whether it is printed so.
pub(crate) fn printed_as(texts: &Texts, row: &Row<'_>, case: &mut Case) {
    let source = case.bytes_of(texts, row, 2);
    let text = case.bytes_of(texts, row, 3);
    match text_of(case.alloc, &source) {
        Ok(bytes) => case.say(if bytes.as_slice() == text.as_slice() {
            " as it should be"
        } else {
            " otherwise"
        }),
        Err(fault) => tell_fault(fault, case),
    }
}

/// `externals`, a source: how many external declarations it has.
pub(crate) fn externals(texts: &Texts, row: &Row<'_>, case: &mut Case) {
    let source = case.bytes_of(texts, row, 1);
    match count(case.alloc, &source) {
        Ok(externals) => case.show(externals),
        Err(fault) => tell_fault(fault, case),
    }
}

/// `read`, a name, a source: whether it is read.
pub(crate) fn read(texts: &Texts, row: &Row<'_>, case: &mut Case) {
    let source = case.bytes_of(texts, row, 2);
    match count(case.alloc, &source) {
        Ok(_) => case.say(" read"),
        Err(fault) => tell_fault(fault, case),
    }
}

// Tells the line and the external declarations of a front that is read. Gives whether it is refused
// at its last line.
fn tell_front(front: &[u8], line: u32, case: &mut Case) -> bool {
    match count(case.alloc, front) {
        Ok(externals) => {
            let text = format!(in case.alloc; " {line}:{externals}");
            case.tell(text);
            false
        }
        Err(SourceFault::Line { place, why }) => place.line == line && why == LineFault::Syntax,
        Err(_) => false,
    }
}

/// `fronts`, a name, a text: each front that ends with a line is read or refused at the line behind
/// its last one. Told are those that are read, with how many external declarations they have, and
/// how many are refused there.
pub(crate) fn fronts(texts: &Texts, row: &Row<'_>, case: &mut Case) {
    let text = case.bytes_of(texts, row, 2);
    let mut line: u32 = 1;
    let mut refused: u32 = if tell_front(&[], line, case) { 1 } else { 0 };
    for end in 0..text.len() {
        if text[end] == b'\n' {
            line = line.saturating_add(1);
            if tell_front(&text[..end + 1], line, case) {
                refused = refused.saturating_add(1);
            }
        }
    }
    case.say(", refused");
    case.show(refused);
}
