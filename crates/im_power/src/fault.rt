ghost use Rattle.std.specs.Prelude.{◌≡◌};
ghost use Rattle.im_power.specs.declared.fault.TraceFault.TheVariants.{OutOfMemory};

use std::alloc::{AllocError, AllocFailed};
use thiserror::Error;

/// Why a text lists no periods. Lines are counted from 1.
#[derive(Debug, Drop, Error)]
pub enum TraceFault {
    /// The first line that is wrong has another form than a period's.
    #[error("bad line {0}")]
    BadLine(u64),
    /// The first line that is wrong repeats its period 0 times.
    #[error("zero repeat at line {0}")]
    ZeroRepeat(u64),
    /// All lines are right; their repeats add up to this, more than 1000000 (2^64 - 1 where they
    /// add up to more).
    #[error("too many periods {0}")]
    TooMany(u64),
    #[error("no memory")]
    OutOfMemory,
}

impl From<AllocError> for TraceFault {
    ghost from_gives = { λ _ e. e ≡ OutOfMemory };

    fn from(_fault: AllocError) -> TraceFault {
        TraceFault::OutOfMemory
    }
}

impl<T: Drop> From<AllocFailed<T>> for TraceFault {
    ghost from_gives = { λ _ e. e ≡ OutOfMemory };

    fn from(_fault: AllocFailed<T>) -> TraceFault {
        TraceFault::OutOfMemory
    }
}
