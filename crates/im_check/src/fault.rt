ghost use Rattle.std.specs.Prelude.{◌≡◌};
ghost use Rattle.im_check.specs.declared.fault.CheckFault.TheVariants.{OutOfMemory};
ghost use Rattle.im_check.specs.Stops.{fault_of};

use im_check_externals::UnitFault;
use im_ctree::Name;
use im_num::NoMemory;

/// Why a tree isn't checked to a program.
#[derive(Debug, Drop)]
pub enum CheckFault {
    /// The rule of that number is broken by a node whose first token is that one.
    Rule { number: u32, token: u32 },
    /// The parameters of a function take that many words of 4 bytes, which is over the limit of 8.
    /// Its declarator has this first token and this name.
    Crowded { words: u64, token: u32, name: Name },
    /// A type has that many bytes, which is over the limit of 1048576. It was met in the declarator
    /// of this name, or in a function with it, or in specifiers, which have no name; the token is
    /// their first.
    Large { bytes: u64, token: u32, name: Name },
    /// All statics have that many bytes, which is over their limit of 1048576.
    Statics { bytes: u64 },
    OutOfMemory,
}

impl From<NoMemory> for CheckFault {
    ghost from_gives = { λ _ fault. fault ≡ OutOfMemory };

    fn from(_fault: NoMemory) -> CheckFault {
        CheckFault::OutOfMemory
    }
}

impl From<UnitFault> for CheckFault {
    ghost from_gives = { λ of_unit fault. fault ≡ fault_of of_unit };

    fn from(fault: UnitFault) -> CheckFault {
        match fault {
            UnitFault::Rule { number, token } => CheckFault::Rule { number, token },
            UnitFault::Large { bytes, token, name } => CheckFault::Large { bytes, token, name },
            UnitFault::Memory => CheckFault::OutOfMemory,
        }
    }
}
