ghost use Rattle.std.specs.Prelude.{◌≡◌, ◌<◌, ◌≤◌, ◌+◌, ◌-◌, ◌^◌, ◌++◌, ◌↔◌, min, IsErr, [], Some};
ghost use Rattle.std.specs.Prelude.{None, is_some, option_map, IsTrue, MatchOption, MatchResult};
ghost use Rattle.std.specs.Prelude.{take, drop, length, IfOk};
ghost use Rattle.std.specs.Str.{bytes_eq};
ghost use Rattle.im_io.specs.MemFiles.{File, bytes_of, new_file, left};
ghost use Rattle.im_io.specs.Rooms.{NothingFits};
ghost use Rattle.im_io.specs.Shelf.{Fits, TakesSome};

use crate::fault::Failed;
use crate::room::{append, nothing_fits};
use im_num::NoMemory;
use std::alloc::Global;
use std::marker::Model;

/// A name, and room for so many bytes of a file of that name, which is there or not.
#[derive(Drop)]
pub(crate) struct MemFile {
    name: String,
    bytes: Vec<u8>,
    is_there: bool,
}

impl Model for MemFile {
    ghost use Rattle.std.specs.Prelude.{Some, None, cond, string_bytes, vec_capacity};
    ghost use Rattle.im_io.specs.MemFiles.{File};

    ghost Value = { File };

    ghost view = { λ file. record {
      name = string_bytes file.name;
      content = cond file.is_there
          (Some file.bytes.items) None;
      room = vec_capacity file.bytes;
    } };
}

impl MemFile {
    /// A file with these bytes, or none, and room for so many bytes, at least for those that it
    /// has.
    pub(crate) fn new(
        alloc: Global,
        name: &str,
        bytes: &Option<Vec<u8>>,
        room: usize,
    ) -> Result<MemFile, NoMemory>
        ensures { IfOk result (λ file. file ≡ new_file name.now
            (option_map (λ held. held.items) bytes.now) room) }
    {
        let held = match bytes {
            Some(held) => held.as_slice(),
            None => &[],
        };
        let mut all = Vec::with_capacity(alloc, room.max(held.len()))?;
        append(&mut all, held);
        Ok(MemFile {
            name: String::from_str(alloc, name)?,
            bytes: all,
            is_there: bytes.is_some(),
        })
    }

    pub(crate) fn has_name(&self, name: &str) -> bool
        ensures { result ≡ bytes_eq name.now self.now.name }
    {
        name == self.name.as_str()
    }

    pub(crate) fn is_there(&self) -> bool
        ensures { result ≡ is_some self.now.content }
    {
        self.is_there
    }

    /// The bytes, where the file is there.
    pub(crate) fn contents(&self) -> Option<&[u8]>
        ensures { MatchOption result (self.now.content ≡ None)
            (λ bytes. self.now.content ≡ Some bytes.now) }
    {
        if self.is_there {
            Some(self.bytes.as_slice())
        } else {
            None
        }
    }

    /// Copies the bytes from a place on into a buffer, as many as it holds or the file still has.
    pub(crate) fn read_at(&self, place: usize, buffer: &mut [u8]) -> usize
        requires there { IsTrue (is_some self.now.content) }
        requires place { place ≤ length (bytes_of self.now.content) }
        ensures count { result ≡ min (length buffer.old)
            (length (bytes_of self.now.content) - place) }
        ensures end { place + result < 2 ^ 64 }
        ensures next { take result buffer.new
            ≡ take result (drop place (bytes_of self.now.content)) }
    {
        let count = buffer.len().min(self.bytes.len() - place);
        buffer[..count].copy_from_slice(&self.bytes[place..place + count]);
        count
    }

    /// Puts an empty file there.
    pub(crate) fn create(&mut self)
        ensures { self.new ≡ record {
          name = self.old.name;
          content = Some [];
          room =
              self.old.room;
        } }
    {
        self.bytes.clear();
        self.is_there = true;
    }

    /// Writes the first bytes of a piece to the file's end, as many as there is room for. It
    /// refuses a piece for which no room is left.
    pub(crate) fn write(&mut self, piece: &[u8]) -> Result<usize, Failed>
        requires there { IsTrue (is_some self.old.content) }
        ensures fits { Fits piece.now result }
        ensures some { TakesSome piece.now result }
        ensures refused { IsErr result ↔ NothingFits piece.now (left self.old) }
        ensures count { IfOk result (λ count. count ≡ min (length piece.now) (left self.old)) }
        ensures put { MatchResult result (λ count. self.new
            ≡ record {
              name = self.old.name;
              content = Some
                  (bytes_of self.old.content ++ take count piece.now);
              room = self.old.room;
            })
            (λ _. self.new ≡ self.old) }
    {
        let room = self.bytes.capacity() - self.bytes.len();
        if nothing_fits(piece, room) {
            return Err(Failed);
        }
        let count = piece.len().min(room);
        append(&mut self.bytes, &piece[..count]);
        Ok(count)
    }
}
