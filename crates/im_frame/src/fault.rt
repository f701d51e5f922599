ghost use Rattle.std.specs.Prelude.{◌≡◌};
ghost use Rattle.im_frame.specs.declared.fault.FrameFault.TheVariants.{OutOfMemory};

use std::alloc::AllocFailed;
use thiserror::Error;

/// Why a function has no frame.
#[derive(Clone, Copy, PartialEq, Eq, Debug, Error)]
pub enum FrameFault {
    /// The frame would have so many bytes, more than 65536.
    #[error("frame of {0} bytes")]
    Limit(u64),
    #[error("no memory")]
    OutOfMemory,
}

impl<T: Drop> From<AllocFailed<T>> for FrameFault {
    ghost from_gives = { λ _ e. e ≡ OutOfMemory };

    fn from(_fault: AllocFailed<T>) -> FrameFault {
        FrameFault::OutOfMemory
    }
}
