use im_frame::FrameFault;
use im_link::LinkFault;
use im_num::NoMemory;
use im_trial::{Case, Stop};
use std::alloc::{AllocError, AllocFailed};

/// Why what a case is about can't be made.
#[derive(Clone, Copy)]
pub(crate) enum Fault {
    Memory,
    /// It is refused.
    Refused,
}

impl From<AllocError> for Fault {
    fn from(_fault: AllocError) -> Fault {
        Fault::Memory
    }
}

impl<T: Drop> From<AllocFailed<T>> for Fault {
    fn from(_fault: AllocFailed<T>) -> Fault {
        Fault::Memory
    }
}

impl From<NoMemory> for Fault {
    fn from(_fault: NoMemory) -> Fault {
        Fault::Memory
    }
}

impl From<FrameFault> for Fault {
    fn from(_fault: FrameFault) -> Fault {
        Fault::Refused
    }
}

impl From<LinkFault> for Fault {
    fn from(_fault: LinkFault) -> Fault {
        Fault::Refused
    }
}

/// What was made, and none where the case ends for want of it.
pub(crate) fn taken<T: Drop>(made: Result<T, Fault>, case: &mut Case) -> Option<T> {
    match made {
        Ok(value) => Some(value),
        Err(Fault::Memory) => {
            case.end(Stop::Memory);
            None
        }
        Err(Fault::Refused) => {
            case.end(Stop::Row);
            None
        }
    }
}
