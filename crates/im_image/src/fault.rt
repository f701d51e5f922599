ghost use Rattle.std.specs.Prelude.{◌≡◌};
ghost use Rattle.im_image.specs.declared.fault.ImageFault.TheVariants.{OutOfMemory};

use im_num::NoMemory;
use std::alloc::{AllocError, AllocFailed};
use thiserror::Error;

/// Why bytes are not an image: the first thing, from the front, that is not as it must be.
#[derive(Debug, Drop, Error)]
pub enum ImageFault {
    /// The bytes end before a field does; how many bytes there are in all.
    #[error("short image at {0}")]
    ShortImage(u64),
    #[error("bad magic")]
    BadMagic,
    /// A version other than 1 and 2.
    #[error("bad version {0}")]
    BadVersion(u32),
    /// The number of the first field whose rule the bytes break, from 3 to 10.
    #[error("bad field {0}")]
    BadField(u32),
    /// The place of the first byte behind the last object.
    #[error("trailing bytes at {0}")]
    Trailing(u64),
    #[error("no memory")]
    OutOfMemory,
}

impl From<NoMemory> for ImageFault {
    ghost from_gives = { λ _ e. e ≡ OutOfMemory };

    fn from(_fault: NoMemory) -> ImageFault {
        ImageFault::OutOfMemory
    }
}

impl From<AllocError> for ImageFault {
    ghost from_gives = { λ _ e. e ≡ OutOfMemory };

    fn from(_fault: AllocError) -> ImageFault {
        ImageFault::OutOfMemory
    }
}

impl<T: Drop> From<AllocFailed<T>> for ImageFault {
    ghost from_gives = { λ _ e. e ≡ OutOfMemory };

    fn from(_fault: AllocFailed<T>) -> ImageFault {
        ImageFault::OutOfMemory
    }
}
