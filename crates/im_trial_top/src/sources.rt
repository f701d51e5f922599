use crate::faults::tell_fault;
use im_driver::{Options, compile};
use im_trial::{Case, Row, Stop, Texts};
use std::alloc::Global;

const OPTIONS: Options = Options {
    stack: 256,
    out_cap: 0,
    max_gap: None,
};

// Whether a source compiles, or why it is refused.
fn tell_source(source: &[u8], case: &mut Case) {
    match compile(case.alloc, source, OPTIONS) {
        Ok(_) => case.say(" compiles"),
        Err(fault) => tell_fault(fault, case),
    }
}

// Three fields in a row.
fn joined(alloc: Global, texts: &Texts, row: &Row<'_>) -> Result<Vec<u8>, Stop> {
    let mut source = row.bytes(alloc, texts, 2)?;
    for number in [3, 4] {
        source.extend_from_slice(&row.bytes(alloc, texts, number)?)?;
    }
    Ok(source)
}

/// `source`, a name, three pieces of a source.
pub(crate) fn source(texts: &Texts, row: &Row<'_>, case: &mut Case) {
    let made = joined(case.alloc, texts, row);
    if let Some(source) = case.take(made) {
        tell_source(&source, case);
    }
}

// As many typedef names, each for pointers to what the one before it stands for, and a `main`.
fn typedef_chain(alloc: Global, links: u32) -> Result<String, Stop> {
    let mut text = String::from_str(alloc, "typedef int t0;")?;
    for link in 0..links {
        let next = link + 1;
        text.push_str(&format!(in alloc; "typedef t{link}*t{next};")?)?;
    }
    text.push_str(&format!(in alloc; "t{links} last;")?)?;
    text.push_str("int main(void){return 0;}")?;
    Ok(text)
}

/// `typedefs`, a name, a number: a chain of as many typedef names.
pub(crate) fn typedefs(row: &Row<'_>, case: &mut Case) {
    let links = case.small(row.field(2));
    let made = typedef_chain(case.alloc, links);
    if let Some(source) = case.take(made) {
        tell_source(source.as_bytes(), case);
    }
}
