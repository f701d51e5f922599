ghost use Rattle.std.specs.Prelude.{◌≡◌};
ghost use Rattle.im_trial.specs.declared.stop.Stop.TheVariants.{Files, Memory};

use im_num::NoMemory;
use std::alloc::{AllocError, AllocFailed};
use std::io;

/// Why a case ends early, or all of them do.
#[derive(Clone, Copy, Debug, PartialEq)]
pub enum Stop {
    /// The row lacks a field, or has one out of form.
    Row,
    /// Memory ran out.
    Memory,
    /// A file can't be read, or what is found can't be written.
    Files,
}

impl From<AllocError> for Stop {
    ghost from_gives = { λ _ e. e ≡ Memory };

    fn from(_fault: AllocError) -> Stop {
        Stop::Memory
    }
}

impl<T: Drop> From<AllocFailed<T>> for Stop {
    ghost from_gives = { λ _ e. e ≡ Memory };

    fn from(_fault: AllocFailed<T>) -> Stop {
        Stop::Memory
    }
}

impl From<NoMemory> for Stop {
    ghost from_gives = { λ _ e. e ≡ Memory };

    fn from(_fault: NoMemory) -> Stop {
        Stop::Memory
    }
}

impl From<io::Error> for Stop {
    ghost from_gives = { λ _ e. e ≡ Files };

    fn from(_fault: io::Error) -> Stop {
        Stop::Files
    }
}
