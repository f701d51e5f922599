use super::files::File;
use super::outcome::Outcome;
use im_io::MemSink;
use std::alloc::{AllocError, Global};
use std::str;

/// How much of a text is there.
fn share(found: &[u8], whole: &[u8]) -> &'static str {
    if found.is_empty() {
        "nothing"
    } else if found == whole {
        "whole"
    } else if whole.starts_with(found) {
        "a part"
    } else {
        "something else"
    }
}

fn text_of(bytes: &[u8]) -> &str {
    str::from_utf8(bytes).unwrap_or("no text")
}

/// What stands before the first blank or end of a line.
fn first_word(bytes: &[u8]) -> &str {
    for word in bytes.split(|byte| *byte == b' ' || *byte == b'\n') {
        if !word.is_empty() {
            return text_of(word);
        }
    }
    "nothing"
}

/// The first line that tells how it went, or the first word where none does.
fn verdict(bytes: &[u8]) -> &str {
    for line in bytes.split(|byte| *byte == b'\n') {
        if line.starts_with(b"status ") || line.starts_with(b"intermit: ") {
            return text_of(line);
        }
    }
    first_word(bytes)
}

/// What a stream took of what is due: of a stream that fails the first bytes alone, maybe none.
fn taken<'a>(found: &'a MemSink, whole: &MemSink) -> &'a str {
    let bytes = found.contents();
    let due = whole.contents();
    if !due.starts_with(bytes) {
        verdict(bytes)
    } else if found.faults() > 0 && bytes.len() < due.len() {
        "cut"
    } else {
        share(bytes, due)
    }
}

/// What stands in a file, by what stood there and what is to stand there.
fn held(found: Option<&[u8]>, before: Option<&[u8]>, whole: Option<&[u8]>) -> &'static str {
    if found == before {
        return if found.is_some() {
            "as it was"
        } else {
            "absent"
        };
    }
    match (found, whole) {
        (None, _) => "lost",
        (Some(b""), Some(_)) => "empty",
        (Some(found), Some(whole)) => share(found, whole),
        (Some(_), None) => "something else",
    }
}

/// What stands in each file that the command makes or changes.
fn told_of_files(
    alloc: Global,
    files: &[File],
    whole: &Outcome,
    found: &Outcome,
) -> Result<String, AllocError> {
    let mut text = String::new(alloc);
    for (name, bytes, _) in files {
        let before = bytes.as_deref();
        let due = whole.shelf.file(name);
        let there = found.shelf.file(name);
        if due != before || there != before {
            text.push_str(&format!(in alloc; "; {name} {}", held(there, before, due))?)?;
        }
    }
    Ok(text)
}

/// What came of a command without a failure.
pub(super) fn whole_text(
    alloc: Global,
    files: &[File],
    whole: &Outcome,
) -> Result<String, AllocError> {
    let held = told_of_files(alloc, files, whole, whole)?;
    let out = first_word(whole.out.contents());
    let err = verdict(whole.err.contents());
    format!(in alloc; "{}; out {out}; err {err}{held}", whole.status)
}

/// What came of a command beside what comes of it without a failure.
pub(super) fn failed_text(
    alloc: Global,
    files: &[File],
    whole: &Outcome,
    found: &Outcome,
) -> Result<String, AllocError> {
    let held = told_of_files(alloc, files, whole, found)?;
    let out = taken(&found.out, &whole.out);
    let err = taken(&found.err, &whole.err);
    format!(in alloc; "{}; out {out}; err {err}{held}", found.status)
}
