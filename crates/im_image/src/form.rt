ghost use Rattle.std.specs.Prelude.{◌≡◌};
ghost use Rattle.im_image.specs.Text.{form_number};

/// How a device's memory tells the length of its output.
#[derive(Clone, Copy, PartialEq, Eq, Debug)]
pub enum Form {
    /// Form 0: by the word OUT_LEN0.
    OneLength,
    /// Form 1: by OUT_LEN0 or OUT_LEN1, as the byte OUT_SEL says.
    TwoLengths,
}

impl Form {
    pub fn number(self) -> u32
        ensures { result ≡ form_number self }
    {
        match self {
            Form::OneLength => 0,
            Form::TwoLengths => 1,
        }
    }
}
