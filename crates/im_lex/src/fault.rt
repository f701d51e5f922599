ghost use Rattle.std.specs.Prelude.{◌≡◌};
ghost use Rattle.im_lex.specs.declared.fault.LexFault.TheVariants.{OutOfMemory};

use std::alloc::{AllocError, AllocFailed};
use thiserror::Error;

/// Why no token, white space, comment or line marker stands at a place (C11 6.4).
#[derive(Clone, Copy, PartialEq, Eq, Debug)]
pub enum LexFaultKind {
    /// A byte with which nothing begins.
    BadByte,
    /// A `/*` without its `*/`.
    OpenComment,
    /// A literal that its line or the text ends, or a character constant without exactly one
    /// character.
    OpenLiteral,
    /// A backslash with no escape behind it, or with one whose value is over 255.
    BadEscape,
    /// A number that is no integer constant, or whose value no type of its list holds.
    BadNumber,
    /// A `#` that is no line marker.
    BadDirective,
}

/// Why a source has no tokens.
#[derive(Clone, Copy, PartialEq, Eq, Debug, Drop, Error)]
pub enum LexFault {
    /// The source lexes up to the byte `at`, and nothing that begins there can be read.
    #[error("byte {at}: {kind:?}")]
    Stuck { at: u32, kind: LexFaultKind },
    #[error("no memory")]
    OutOfMemory,
}

impl From<AllocError> for LexFault {
    ghost from_gives = { λ _ fault. fault ≡ OutOfMemory };

    fn from(_fault: AllocError) -> LexFault {
        LexFault::OutOfMemory
    }
}

impl<T: Drop> From<AllocFailed<T>> for LexFault {
    ghost from_gives = { λ _ fault. fault ≡ OutOfMemory };

    fn from(_fault: AllocFailed<T>) -> LexFault {
        LexFault::OutOfMemory
    }
}
