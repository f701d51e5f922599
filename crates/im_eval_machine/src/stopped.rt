ghost use Rattle.std.specs.Prelude.{◌≡◌};
ghost use Rattle.im_eval_machine.specs.declared.stopped.Stopped.TheVariants as stopped;

use im_num::NoMemory;
use im_store::Undefined;
use std::alloc::AllocFailed;

/// Why a run goes no further.
#[derive(Clone, Copy, Debug)]
pub enum Stopped {
    /// What was done has no meaning.
    Undefined(Undefined),
    /// A unit of fuel was wanted and none was left.
    MoreFuel,
    /// A function was called whose frame has no room on the stack.
    StackExhausted,
    OutOfMemory,
}

impl From<Undefined> for Stopped {
    ghost from_gives = { λ why stop. stop ≡ stopped.Undefined why };

    fn from(why: Undefined) -> Stopped {
        Stopped::Undefined(why)
    }
}

impl From<NoMemory> for Stopped {
    ghost from_gives = { λ _ stop. stop ≡ stopped.OutOfMemory };

    fn from(_fault: NoMemory) -> Stopped {
        Stopped::OutOfMemory
    }
}

impl<T: Drop> From<AllocFailed<T>> for Stopped {
    ghost from_gives = { λ _ stop. stop ≡ stopped.OutOfMemory };

    fn from(_fault: AllocFailed<T>) -> Stopped {
        Stopped::OutOfMemory
    }
}
