ghost use Rattle.std.specs.Prelude.{◌≡◌};
ghost use Rattle.im_cmd_words.specs.declared.fault.WordsFault.TheVariants.{OutOfMemory};

use std::alloc::AllocError;
use thiserror::Error;

/// Why words name no command.
#[derive(Debug, Drop, Error)]
pub enum WordsFault {
    /// The table doesn't take the words, a request for help among them: the text for the user.
    #[error("{0}")]
    Usage(String),
    #[error("no memory")]
    OutOfMemory,
}

impl From<AllocError> for WordsFault {
    ghost from_gives = { λ _ e. e ≡ OutOfMemory };

    fn from(_fault: AllocError) -> WordsFault {
        WordsFault::OutOfMemory
    }
}
