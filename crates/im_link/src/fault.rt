ghost use Rattle.std.specs.Prelude.{◌≡◌};
ghost use Rattle.im_link.specs.declared.fault.LinkFault.TheVariants.{OutOfMemory};

use im_num::NoMemory;
use std::alloc::{AllocError, AllocFailed};
use thiserror::Error;

/// Why parts can't be linked.
#[derive(Clone, Copy, PartialEq, Eq, Debug, Error)]
pub enum LinkFault {
    /// The code would have so many bytes, more than 1044480 (2^64 - 1 where it would have more).
    #[error("code of {0} bytes")]
    Limit(u64),
    #[error("no memory")]
    OutOfMemory,
}

impl From<NoMemory> for LinkFault {
    ghost from_gives = { λ _ e. e ≡ OutOfMemory };

    fn from(_fault: NoMemory) -> LinkFault {
        LinkFault::OutOfMemory
    }
}
