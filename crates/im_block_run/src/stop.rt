ghost use Rattle.std.specs.Prelude.{◌≡◌};
ghost use Rattle.im_block_run.specs.declared.stop.Stop.TheVariants as stops;

use im_num::NoMemory;
use im_store::{Number, Undefined};
use std::alloc::AllocFailed;

/// Why a run goes no further.
#[derive(Clone, Copy, Debug)]
pub(crate) enum Stop {
    /// What was done has no meaning.
    Undefined(Undefined),
    /// A unit of fuel was wanted and none was left.
    MoreFuel,
    /// A function was called whose frame has no room on the stack.
    StackExhausted,
    /// `main` returned this.
    Returned(Number),
    /// What comes next isn't served here.
    Beyond,
    OutOfMemory,
}

impl From<Undefined> for Stop {
    ghost from_gives = { λ why stop. stop ≡ stops.Undefined why };

    fn from(why: Undefined) -> Stop {
        Stop::Undefined(why)
    }
}

impl From<NoMemory> for Stop {
    ghost from_gives = { λ _ stop. stop ≡ stops.OutOfMemory };

    fn from(_fault: NoMemory) -> Stop {
        Stop::OutOfMemory
    }
}

impl<T: Drop> From<AllocFailed<T>> for Stop {
    ghost from_gives = { λ _ stop. stop ≡ stops.OutOfMemory };

    fn from(_fault: AllocFailed<T>) -> Stop {
        Stop::OutOfMemory
    }
}
