ghost use Rattle.std.specs.Prelude.{◌≡◌};
ghost use Rattle.im_serve.specs.Services.{row};

use im_num::Kind;

/// A function that the runtime serves.
#[derive(Clone, Copy, PartialEq, Eq, Debug)]
pub enum Service {
    /// `int getchar(void)` (C11 7.21.7.6).
    Getchar,
    /// `int putchar(int)` (C11 7.21.7.8).
    Putchar,
}

impl Service {
    /// The name that a program calls it by.
    pub fn name(self) -> &'static [u8]
        ensures { result.now ≡ (row self).name }
    {
        match self {
            Service::Getchar => b"getchar",
            Service::Putchar => b"putchar",
        }
    }

    /// The kind of its parameter, where it has one.
    pub fn parameter(self) -> Option<Kind>
        ensures { result ≡ (row self).parameter }
    {
        match self {
            Service::Getchar => None,
            Service::Putchar => Some(Kind::I32),
        }
    }

    /// The kind of what it gives.
    pub fn gives(self) -> Kind
        ensures { result ≡ (row self).result }
    {
        match self {
            Service::Getchar | Service::Putchar => Kind::I32,
        }
    }
}
