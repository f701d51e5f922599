use std::alloc::AllocError;
use thiserror::Error;

/// A read, write or creation that was refused; a count of the shelf or sink says so.
#[derive(Clone, Copy, PartialEq, Eq, Debug, Error)]
#[error("refused")]
pub struct Failed;

/// Why a file can't be opened.
#[derive(Clone, Copy, PartialEq, Eq, Debug, Error)]
pub enum OpenFault {
    #[error("no such file")]
    Absent,
    #[error("refused")]
    Failed,
}

/// Why a whole file can't be read.
#[derive(Clone, Copy, PartialEq, Eq, Debug, Error)]
pub enum ReadFault {
    #[error("no such file")]
    Absent,
    #[error("refused")]
    Fault,
    /// The file has more bytes than this limit.
    #[error("over {0} bytes")]
    TooLong(u64),
    #[error("no memory")]
    OutOfMemory,
}

impl From<AllocError> for ReadFault {
    ghost use Rattle.std.specs.Prelude.{◌≡◌};
    ghost use Rattle.im_io.specs.declared.fault.ReadFault.TheVariants.{OutOfMemory};

    ghost from_gives = { λ _ e. e ≡ OutOfMemory };

    fn from(_fault: AllocError) -> ReadFault {
        ReadFault::OutOfMemory
    }
}
