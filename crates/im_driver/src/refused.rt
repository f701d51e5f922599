ghost use Rattle.std.specs.Prelude.{◌≡◌};
ghost use Rattle.im_driver.specs.Steps.{as_whole};

use im_fault::{SourceFault, Subject};

/// Why a source is refused.
#[derive(Drop)]
pub struct Refused {
    pub fault: SourceFault,
    /// Of what a quantity over its limit is counted.
    pub subject: Subject,
}

/// A fault of no one function or object.
pub(crate) fn whole(fault: SourceFault) -> Refused
    ensures { result ≡ as_whole fault }
{
    Refused {
        fault,
        subject: Subject::Whole,
    }
}
