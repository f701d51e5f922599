//! Why a node is not typed.
ghost use Rattle.std.specs.Prelude.{◌≡◌};
ghost use Rattle.im_check_stop.specs.declared.stop.Stop.TheVariants.{Memory};

use im_num::NoMemory;
use std::alloc::{AllocError, AllocFailed};

/// Why a node isn't typed.
#[derive(Clone, Copy, PartialEq, Eq, Debug)]
pub enum Stop {
    /// The rule of that number is broken by a node whose first token is that one.
    Rule { number: u32, token: u32 },
    /// A type has that many bytes, which is over the limit of one type.
    Large { bytes: u64 },
    /// Memory ran out.
    Memory,
}

impl<T: Drop> From<AllocFailed<T>> for Stop {
    ghost from_gives = { λ _ stop. stop ≡ Memory };

    fn from(_fault: AllocFailed<T>) -> Stop {
        Stop::Memory
    }
}

impl From<AllocError> for Stop {
    ghost from_gives = { λ _ stop. stop ≡ Memory };

    fn from(_fault: AllocError) -> Stop {
        Stop::Memory
    }
}

impl From<NoMemory> for Stop {
    ghost from_gives = { λ _ stop. stop ≡ Memory };

    fn from(_fault: NoMemory) -> Stop {
        Stop::Memory
    }
}

/// A rule that refuses a node whose first token is that one.
pub fn refused(number: u32, token: u32) -> Stop
    ensures { result ≡ Stop.Rule number token }
{
    Stop::Rule { number, token }
}
