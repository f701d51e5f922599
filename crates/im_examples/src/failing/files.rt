use im_io::MemShelf;
use std::alloc::{AllocError, Global};
use std::{fs, io};

/// A name, the bytes of the file where it is there, and its room in bytes.
pub(super) type File = (String, Option<Vec<u8>>, usize);

/// More bytes than any file here has.
const ROOM: usize = 65536;

/// The files that are named, with their bytes where they are there.
pub(super) fn first_files(rt: &HostRuntime) -> io::Result<Vec<File>> {
    let alloc = rt.alloc();
    let names = fs::read_to_string(rt, "failing/files")?;
    let mut files = Vec::new(alloc);
    for name in names.lines() {
        let path = format!(in alloc; "failing/{name}")?;
        let bytes = fs::read(rt, &path).ok();
        files.push((String::from_str(alloc, name)?, bytes, ROOM))?;
    }
    Ok(files)
}

fn copy(alloc: Global, bytes: Option<&[u8]>) -> Result<Option<Vec<u8>>, AllocError> {
    match bytes {
        Some(bytes) => Ok(Some(Vec::from_slice(alloc, bytes)?)),
        None => Ok(None),
    }
}

/// Files of these names and rooms, with the bytes that a shelf has.
pub(super) fn files_of(
    alloc: Global,
    files: &[File],
    shelf: &MemShelf,
) -> Result<Vec<File>, AllocError> {
    let mut all = Vec::new(alloc);
    for (name, _, room) in files {
        let bytes = copy(alloc, shelf.file(name))?;
        all.push((name.clone()?, bytes, *room))?;
    }
    Ok(all)
}

/// The same files with other rooms.
pub(super) fn with_room(
    alloc: Global,
    files: &[File],
    room: usize,
) -> Result<Vec<File>, AllocError> {
    let mut all = Vec::new(alloc);
    for (name, bytes, _) in files {
        all.push((name.clone()?, copy(alloc, bytes.as_deref())?, room))?;
    }
    Ok(all)
}
