use im_num::NoMemory;
use thiserror::Error;

/// Why a machine can't be made.
#[derive(Clone, Copy, PartialEq, Eq, Debug, Error)]
pub enum LoadFault {
    /// The input's length in bytes, and the most that a machine takes.
    #[error("input of {0} bytes over {1}")]
    InputTooLong(u64, u64),
    #[error("no memory")]
    OutOfMemory,
}

impl From<NoMemory> for LoadFault {
    ghost use Rattle.std.specs.Prelude.{◌≡◌};
    ghost use Rattle.im_emu.specs.declared.fault.LoadFault.TheVariants.{OutOfMemory};

    ghost from_gives = { λ _ e. e ≡ OutOfMemory };

    fn from(_fault: NoMemory) -> LoadFault {
        LoadFault::OutOfMemory
    }
}
