ghost use Rattle.std.specs.Prelude.{◌≡◌, None, IsTrue, MatchOption, position};
ghost use Rattle.std.specs.Str.{bytes_eq};
ghost use Rattle.im_io.specs.MemFiles.{file_at, files_of, is_first};

use crate::calls::Calls;
use crate::fault::{Failed, OpenFault};
use crate::mem_file::MemFile;
use crate::shelf::Shelf;
use im_num::NoMemory;
use std::alloc::Global;
use std::marker::Model;

/// What is open: a file, by its number.
#[derive(Drop)]
pub enum Place {
    Closed,
    /// Open to be read, with how many of its bytes were read.
    Reading { file: usize, read: usize },
    Writing { file: usize },
}

/// A shelf of files in memory, whose names are given when it is made. It takes no memory after
/// that. It refuses the calls that it is told to refuse, a file of another name, and a piece for
/// which a file has no room left.
#[derive(Drop)]
pub struct MemShelf {
    files: Vec<MemFile>,
    place: Place,
    calls: Calls,
    read_faults: u64,
    write_faults: u64,
    absences: u64,
}

impl Model for MemShelf {
    ghost use Rattle.im_io.specs.MemShelves.{MemoryShelf};

    ghost Value = { MemoryShelf };

    ghost view = { λ s. record {
      files = s.files.items;
      place = s.place;
      made = s.calls.made;
      failing = s.calls.failing.items;
      read_faults = s.read_faults;
      write_faults = s.write_faults;
      absences = s.absences;
    } };
}

// The first file of this name, by its number.
fn find(files: &[MemFile], name: &str) -> Option<usize>
    ensures { result ≡ position (λ file. bytes_eq name.now file.name) files.now }
{
    files.iter().position(|file| file.has_name(name))
}

// The first file of this name, where it is there.
fn find_there(files: &[MemFile], name: &str) -> Option<usize>
    ensures { MatchOption result (files_of files.now name.now ≡ None)
        (λ number. IsTrue (is_first files.now number)
        × ((file_at files.now number).name ≡ name.now)) }
{
    match find(files, name) {
        Some(number) => {
            if files[number].is_there() {
                Some(number)
            } else {
                None
            }
        }
        None => None,
    }
}

impl MemShelf {
    ghost use Rattle.std.specs.Prelude.{◌≡◌, None, Some, [], IfSome, MatchOption, map};
    ghost use Rattle.std.specs.Prelude.{string_bytes, IfOk};
    ghost use Rattle.im_io.specs.Shelf as shelf;
    ghost use Rattle.im_io.specs.MemFiles.{files_of, given_file};
    ghost use Rattle.im_io.specs.declared.mem_shelf.Place.TheVariants as place;

    /// A shelf of files, each by its name, the bytes that it has (or none, where it isn't there
    /// yet) and its room in bytes. Of two files of one name the first counts. `failing` has the
    /// numbers of the calls to be refused; the first call's number is 1.
    pub fn new(
        alloc: Global,
        files: &[(String, Option<Vec<u8>>, usize)],
        failing: &[u64],
    ) -> Result<MemShelf, NoMemory>
        ensures state { IfOk result (λ made. ⟦<MemShelf as Shelf>⟧.state made
            ≡ record {
              mode = shelf.Closed;
              told = Some
                  (record {
                    files = files_of (map (given_file string_bytes (λ bytes. bytes.items))
                        files.now);
                    name = [];
                    place = 0;
                  });
              read_faults = 0;
              write_faults = 0;
              absences =
                  0;
            }) }
        ensures value { IfOk result (λ made. made
            ≡ record {
              files = map (given_file string_bytes (λ bytes. bytes.items)) files.now;
              place
                  = place.Closed;
              made = 0;
              failing = failing.now;
              read_faults = 0;
              write_faults = 0;
              absences = 0;
            }) }
    {
        let mut held = Vec::with_capacity(alloc, files.len())?;
        for (name, bytes, room) in files {
            held.push(MemFile::new(alloc, name.as_str(), bytes, *room)?)?;
        }
        Ok(MemShelf {
            files: held,
            place: Place::Closed,
            calls: Calls::new(alloc, failing)?,
            read_faults: 0,
            write_faults: 0,
            absences: 0,
        })
    }

    /// The bytes of the file of this name, where it is there.
    pub fn file(&self, name: &str) -> Option<&[u8]>
        ensures { IfSome (⟦<MemShelf as Shelf>⟧.state self.now).told
            (λ told. MatchOption result (told.files name.now ≡ None)
            (λ bytes. told.files name.now ≡ Some bytes.now)) }
    {
        let number = find(&self.files, name)?;
        self.files[number].contents()
    }

    /// How many openings and reads were refused.
    pub fn read_faults(&self) -> u64
        ensures { result ≡ (⟦<MemShelf as Shelf>⟧.state self.now).read_faults }
    {
        self.read_faults
    }

    /// How many creations and writes were refused.
    pub fn write_faults(&self) -> u64
        ensures { result ≡ (⟦<MemShelf as Shelf>⟧.state self.now).write_faults }
    {
        self.write_faults
    }

    /// How often a file was to be opened that isn't there.
    pub fn absences(&self) -> u64
        ensures { result ≡ (⟦<MemShelf as Shelf>⟧.state self.now).absences }
    {
        self.absences
    }
}

impl Shelf for MemShelf {
    ghost use Rattle.std.specs.Prelude.{◌≡◌, ◌↔◌, ◌⊎◌, None, IfOk, IsErr, IsErrOf, length, min};
    ghost use Rattle.im_io.specs.Shelf.{WhereTold, OpenCounts, mode_opened, Opens, ReadCounts};
    ghost use Rattle.im_io.specs.Shelf.{Reads, WriteCounts, mode_created, Creates, Writes, Fits};
    ghost use Rattle.im_io.specs.Shelf.{TakesSome, Reading, Writing};
    ghost use Rattle.im_io.specs.Rooms.{NothingFits};
    ghost use Rattle.im_io.specs.MemFiles.{files_of, left, IsGiven};
    ghost use Rattle.im_io.specs.MemShelves.{state_of, Fails, file_open, bytes_left, CallMade};
    ghost use Rattle.im_io.specs.MemShelves.{faults_after, read_faults_after, absences_after};
    ghost use Rattle.im_io.specs.declared.fault.OpenFault.TheVariants as open_fault;

    ghost state = { state_of };

    fn open_file(&mut self, name: &str) -> Result<(), OpenFault>
        ensures counts { OpenCounts result (state_of self.old) (state_of self.new) }
        ensures mode { (state_of self.new).mode ≡ mode_opened result }
        ensures told { WhereTold (state_of self.old).told (state_of self.new).told
            (Opens name.now result) }
        ensures failed { IsErrOf result open_fault.Failed ↔ Fails self.old }
        ensures absent { IsErrOf result open_fault.Absent
            ↔ ((Fails self.old → ⊥) × (files_of self.old.files name.now ≡ None)) }
        ensures made { CallMade self.old self.new }
        ensures faults { self.new.read_faults ≡ read_faults_after result self.old.read_faults }
        ensures absences { self.new.absences ≡ absences_after result self.old.absences }
    {
        self.place = Place::Closed;
        if self.calls.is_refused() {
            self.read_faults = self.read_faults.saturating_add(1);
            return Err(OpenFault::Failed);
        }
        match find_there(&self.files, name) {
            Some(file) => {
                self.place = Place::Reading { file, read: 0 };
                Ok(())
            }
            None => {
                self.absences = self.absences.saturating_add(1);
                Err(OpenFault::Absent)
            }
        }
    }

    fn read(&mut self, buffer: &mut [u8]) -> Result<usize, Failed>
        requires { (state_of self.old).mode ≡ Reading }
        ensures counts { ReadCounts result (state_of self.old) (state_of self.new) }
        ensures mode { (state_of self.new).mode ≡ Reading }
        ensures fits { Fits buffer.old result }
        ensures told { WhereTold (state_of self.old).told (state_of self.new).told
            (Reads buffer.old buffer.new result) }
        ensures failed { IsErr result ↔ Fails self.old }
        ensures count { IfOk result (λ count. count
            ≡ min (length buffer.old) (bytes_left self.old)) }
        ensures made { CallMade self.old self.new }
        ensures faults { self.new.read_faults ≡ faults_after result self.old.read_faults }
    {
        match self.place {
            Place::Reading { file, read } => {
                if self.calls.is_refused() {
                    self.read_faults = self.read_faults.saturating_add(1);
                    return Err(Failed);
                }
                let count = self.files[file].read_at(read, buffer);
                self.place = Place::Reading {
                    file,
                    read: read + count,
                };
                Ok(count)
            }
            Place::Closed | Place::Writing { .. } => unreachable!(),
        }
    }

    fn create_file(&mut self, name: &str) -> Result<(), Failed>
        ensures counts { WriteCounts result (state_of self.old) (state_of self.new) }
        ensures mode { (state_of self.new).mode ≡ mode_created result }
        ensures told { WhereTold (state_of self.old).told (state_of self.new).told
            (Creates name.now result) }
        ensures failed { IsErr result ↔ (Fails self.old ⊎ (IsGiven name.now self.old.files → ⊥)) }
        ensures made { CallMade self.old self.new }
        ensures faults { self.new.write_faults ≡ faults_after result self.old.write_faults }
    {
        self.place = Place::Closed;
        if self.calls.is_refused() {
            self.write_faults = self.write_faults.saturating_add(1);
            return Err(Failed);
        }
        match find(&self.files, name) {
            Some(file) => {
                self.files[file].create();
                self.place = Place::Writing { file };
                Ok(())
            }
            None => {
                self.write_faults = self.write_faults.saturating_add(1);
                Err(Failed)
            }
        }
    }

    fn write(&mut self, bytes: &[u8]) -> Result<usize, Failed>
        requires { (state_of self.old).mode ≡ Writing }
        ensures counts { WriteCounts result (state_of self.old) (state_of self.new) }
        ensures mode { (state_of self.new).mode ≡ Writing }
        ensures fits { Fits bytes.now result }
        ensures some { TakesSome bytes.now result }
        ensures told { WhereTold (state_of self.old).told (state_of self.new).told
            (Writes bytes.now result) }
        ensures failed { IsErr result ↔ (Fails self.old ⊎ NothingFits bytes.now
            (left (file_open self.old.files self.old.place))) }
        ensures count { IfOk result (λ count. count
            ≡ min (length bytes.now) (left (file_open self.old.files self.old.place))) }
        ensures made { CallMade self.old self.new }
        ensures faults { self.new.write_faults ≡ faults_after result self.old.write_faults }
    {
        match self.place {
            Place::Writing { file } => {
                if self.calls.is_refused() {
                    self.write_faults = self.write_faults.saturating_add(1);
                    return Err(Failed);
                }
                match self.files[file].write(bytes) {
                    Ok(count) => Ok(count),
                    Err(Failed) => {
                        self.write_faults = self.write_faults.saturating_add(1);
                        Err(Failed)
                    }
                }
            }
            Place::Closed | Place::Reading { .. } => unreachable!(),
        }
    }
}
