ghost use Rattle.std.specs.Prelude.{◌≡◌};
ghost use Rattle.im_image.specs.Text.{version_number};

/// The version of an image's text.
#[derive(Clone, Copy, PartialEq, Eq, Debug)]
pub enum Version {
    /// Without a word for the form.
    One,
    /// With that word.
    Two,
}

impl Version {
    pub fn number(self) -> u32
        ensures { result ≡ version_number self }
    {
        match self {
            Version::One => 1,
            Version::Two => 2,
        }
    }
}
