ghost use Rattle.std.specs.Prelude.{◌≡◌};
ghost use Rattle.im_rtlib.specs.Routines.{service_label};

use im_serve::Service;

/// The label of `getchar`. Labels 4 to 31 are those of the checkpoint's entries.
pub const GETCHAR: u32 = 32;

/// The label of `putchar`.
pub const PUTCHAR: u32 = 33;

/// The label of a service's routine.
pub fn service_label(service: Service) -> u32
    ensures { result ≡ service_label service }
{
    match service {
        Service::Getchar => GETCHAR,
        Service::Putchar => PUTCHAR,
    }
}

/// The label of the end of a program that has returned.
pub const EXIT: u32 = 34;

/// The label of the end of a program whose stack is exhausted.
pub const STACK: u32 = 35;

/// From this label on none belongs to the runtime.
pub const FIRST_FREE: u32 = 64;

/// In `getchar`: the input is at its end.
pub(crate) const AT_END: u32 = 40;

/// In `putchar`: the second length holds.
pub(crate) const SECOND: u32 = 41;

/// In `putchar`: the length is read.
pub(crate) const COUNTED: u32 = 42;

/// In `putchar`: the output has its capacity.
pub(crate) const FULL: u32 = 43;

/// In `putchar`: the first length is to be stored.
pub(crate) const FIRST: u32 = 44;

/// In `putchar`: the new length is stored.
pub(crate) const STORED: u32 = 45;
