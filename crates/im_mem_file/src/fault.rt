ghost use Rattle.std.specs.Prelude.{◌≡◌};
ghost use Rattle.im_mem_file.specs.declared.fault.MemoryFault.TheVariants.{OutOfMemory};

use im_num::NoMemory;
use std::alloc::{AllocError, AllocFailed};
use thiserror::Error;

/// Why bytes are not the text of a memory: the first thing, from the front, that is not as it must
/// be.
#[derive(Clone, Copy, PartialEq, Eq, Debug, Error)]
pub enum MemoryFault {
    /// The bytes end before what is wanted next does; how many bytes there are in all.
    #[error("short memory at {0}")]
    ShortMemory(u64),
    #[error("bad magic")]
    BadMagic,
    /// A version other than 1 and 2.
    #[error("bad version {0}")]
    BadVersion(u32),
    /// A form other than 0 and 1.
    #[error("bad form {0}")]
    BadForm(u32),
    /// More than 1280 pages.
    #[error("bad pages {0}")]
    BadPages(u32),
    /// The number of a page that isn't above the one before it, is over 1279, or whose bytes are
    /// all 0.
    #[error("bad page {0}")]
    BadPage(u32),
    /// The place of the first byte behind the last page.
    #[error("trailing bytes at {0}")]
    Trailing(u64),
    #[error("no memory")]
    OutOfMemory,
}

impl From<NoMemory> for MemoryFault {
    ghost from_gives = { λ _ e. e ≡ OutOfMemory };

    fn from(_fault: NoMemory) -> MemoryFault {
        MemoryFault::OutOfMemory
    }
}

impl From<AllocError> for MemoryFault {
    ghost from_gives = { λ _ e. e ≡ OutOfMemory };

    fn from(_fault: AllocError) -> MemoryFault {
        MemoryFault::OutOfMemory
    }
}

impl<T: Drop> From<AllocFailed<T>> for MemoryFault {
    ghost from_gives = { λ _ e. e ≡ OutOfMemory };

    fn from(_fault: AllocFailed<T>) -> MemoryFault {
        MemoryFault::OutOfMemory
    }
}
