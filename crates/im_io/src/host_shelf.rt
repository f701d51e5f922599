use crate::fault::{Failed, OpenFault};
use crate::shelf::Shelf;
use std::fs;
use std::io::{ErrorKind, Read, Write};
use std::rt::Files;

#[derive(Drop)]
pub enum Open<F> {
    Nothing,
    Reading(F),
    Writing(F),
}

/// The host's files. It tells nothing of what they hold, and counts the calls that the host
/// refuses.
#[derive(Drop)]
pub struct HostShelf<R: Files> {
    files: R,
    opened: Open<R::File>,
    read_faults: u64,
    write_faults: u64,
    absences: u64,
}

impl<R: Files> HostShelf<R> {
    ghost use Rattle.std.specs.Prelude.{◌≡◌, None};
    ghost use Rattle.im_io.specs.Shelf.{Closed};

    pub fn new(files: R) -> HostShelf<R>
        ensures { ⟦<HostShelf<R> as Shelf>⟧.state result
            ≡ record {
              mode = Closed;
              told = None;
              read_faults = 0;
              write_faults = 0;
              absences =
                  0;
            } }
    {
        HostShelf {
            files,
            opened: Open::Nothing,
            read_faults: 0,
            write_faults: 0,
            absences: 0,
        }
    }
}

impl<R: Files> Shelf for HostShelf<R> {
    ghost use Rattle.std.specs.Prelude.{None};
    ghost use Rattle.im_io.specs.Host.{mode_of};

    ghost state = { λ s. record { mode = mode_of s.opened; told = None; read_faults = s.read_faults; write_faults = s.write_faults; absences = s.absences } };

    fn open_file(&mut self, name: &str) -> Result<(), OpenFault> {
        self.opened = Open::Nothing;
        match fs::open(&self.files, name) {
            Ok(file) => {
                self.opened = Open::Reading(file);
                Ok(())
            }
            Err(fault) => {
                if fault.kind() == ErrorKind::NotFound {
                    self.absences = self.absences.saturating_add(1);
                    Err(OpenFault::Absent)
                } else {
                    self.read_faults = self.read_faults.saturating_add(1);
                    Err(OpenFault::Failed)
                }
            }
        }
    }

    fn read(&mut self, buffer: &mut [u8]) -> Result<usize, Failed> {
        match &mut self.opened {
            Open::Reading(file) => match file.read(buffer) {
                Ok(count) => Ok(count),
                Err(_) => {
                    self.read_faults = self.read_faults.saturating_add(1);
                    Err(Failed)
                }
            },
            Open::Nothing | Open::Writing(_) => unreachable!(),
        }
    }

    fn create_file(&mut self, name: &str) -> Result<(), Failed> {
        self.opened = Open::Nothing;
        match fs::create(&self.files, name) {
            Ok(file) => {
                self.opened = Open::Writing(file);
                Ok(())
            }
            Err(_) => {
                self.write_faults = self.write_faults.saturating_add(1);
                Err(Failed)
            }
        }
    }

    fn write(&mut self, bytes: &[u8]) -> Result<usize, Failed> {
        match &mut self.opened {
            Open::Writing(file) => match file.write(bytes) {
                Ok(count) if count > 0 || bytes.is_empty() => Ok(count),
                Ok(_) | Err(_) => {
                    self.write_faults = self.write_faults.saturating_add(1);
                    Err(Failed)
                }
            },
            Open::Nothing | Open::Reading(_) => unreachable!(),
        }
    }
}
