ghost use Rattle.std.specs.Prelude.{◌≡◌};
ghost use Rattle.im_parse_core.specs.declared.stop.Stop.TheVariants.{Memory};

use im_num::NoMemory;
use std::alloc::{AllocError, AllocFailed};

/// Why a parsing function read nothing.
#[derive(Clone, Copy, PartialEq, Eq, Debug)]
pub enum Stop {
    /// The number of the first word that goes on no derivation.
    Syntax(u32),
    /// Memory ran out.
    Memory,
}

impl From<NoMemory> for Stop {
    ghost from_gives = { λ _ stop. stop ≡ Memory };

    fn from(_fault: NoMemory) -> Stop {
        Stop::Memory
    }
}

impl<T: Drop> From<AllocFailed<T>> for Stop {
    ghost from_gives = { λ _ stop. stop ≡ Memory };

    fn from(_fault: AllocFailed<T>) -> Stop {
        Stop::Memory
    }
}

impl From<AllocError> for Stop {
    ghost from_gives = { λ _ stop. stop ≡ Memory };

    fn from(_fault: AllocError) -> Stop {
        Stop::Memory
    }
}
