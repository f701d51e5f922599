ghost use Rattle.std.specs.Prelude.{◌≡◌};
ghost use Rattle.im_compile.specs.declared.fault.CompileFault.TheVariants.{OutOfMemory};
ghost use Rattle.im_compile.specs.Ready.{of_link};

use im_link::LinkFault;
use im_num::NoMemory;
use std::alloc::{AllocError, AllocFailed};
use thiserror::Error;

/// Why a program has no image.
#[derive(Clone, Copy, PartialEq, Eq, Debug, Error)]
pub enum CompileFault {
    /// The frame of the function of this number would have so many bytes, more than 65536.
    #[error("frame of function {function}: {bytes} bytes")]
    Frame { function: usize, bytes: u64 },
    /// The code would have so many bytes, more than 1044480 (2^64 - 1 where it would have more).
    #[error("code of {0} bytes")]
    Code(u64),
    #[error("no memory")]
    OutOfMemory,
}

impl From<NoMemory> for CompileFault {
    ghost from_gives = { λ _ e. e ≡ OutOfMemory };

    fn from(_fault: NoMemory) -> CompileFault {
        CompileFault::OutOfMemory
    }
}

impl From<AllocError> for CompileFault {
    ghost from_gives = { λ _ e. e ≡ OutOfMemory };

    fn from(_fault: AllocError) -> CompileFault {
        CompileFault::OutOfMemory
    }
}

impl<T: Drop> From<AllocFailed<T>> for CompileFault {
    ghost from_gives = { λ _ e. e ≡ OutOfMemory };

    fn from(_fault: AllocFailed<T>) -> CompileFault {
        CompileFault::OutOfMemory
    }
}

impl From<LinkFault> for CompileFault {
    ghost from_gives = { λ fault e. e ≡ of_link fault };

    fn from(fault: LinkFault) -> CompileFault {
        match fault {
            LinkFault::Limit(bytes) => CompileFault::Code(bytes),
            LinkFault::OutOfMemory => CompileFault::OutOfMemory,
        }
    }
}
