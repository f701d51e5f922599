use im_io::MemShelf;
use im_trial::{Stop, Texts};
use std::alloc::Global;

/// A file of a shelf: its name, what it holds where it is there, and its room in bytes.
type File = (String, Option<Vec<u8>>, usize);

// A file that is there.
fn file_with(alloc: Global, texts: &Texts, name: &str, held: &str) -> Result<File, Stop> {
    let held = texts.written(alloc, held)?;
    Ok((String::from_str(alloc, name)?, Some(held), 0))
}

// A file that isn't there.
fn file_without(alloc: Global, name: &str, room: &str) -> Result<File, Stop> {
    let room = room.parse::<usize>().map_err(|_| Stop::Row)?;
    Ok((String::from_str(alloc, name)?, None, room))
}

// A file by its words: a name, `=` and what it holds; or a name, `:` and its room, of one that
// isn't there.
fn file_of(alloc: Global, texts: &Texts, words: &str) -> Result<File, Stop> {
    match words.split_once('=') {
        Some((name, held)) => file_with(alloc, texts, name, held),
        None => {
            let (name, room) = words.split_once(':').ok_or(Stop::Row)?;
            file_without(alloc, name, room)
        }
    }
}

/// A shelf of these files, with a blank between two, of whose calls one fails where its number
/// isn't 0.
pub(crate) fn shelf_of(
    alloc: Global,
    texts: &Texts,
    files: &str,
    failing: u64,
) -> Result<MemShelf, Stop> {
    let mut all = Vec::new(alloc);
    for words in files.split_ascii_whitespace() {
        all.push(file_of(alloc, texts, words)?)?;
    }
    Ok(MemShelf::new(alloc, &all, &[failing])?)
}

/// A shelf with an image, and a trace by the name of `cut`.
pub(crate) fn shelf_with(alloc: Global, image: &[u8], trace: &[u8]) -> Result<MemShelf, Stop> {
    let held = Some(Vec::from_slice(alloc, image)?);
    let cut = Some(Vec::from_slice(alloc, trace)?);
    let files = vec![in alloc;
        (String::from_str(alloc, "i")?, held, 0),
        (String::from_str(alloc, "cut")?, cut, 0),
    ]?;
    Ok(MemShelf::new(alloc, &files, &[0])?)
}
