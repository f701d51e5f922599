ghost use Rattle.std.specs.Prelude.{◌≡◌};
ghost use Rattle.im_cmd_lines.specs.Runs.{ending_of};

use im_rv::Went;

/// How a run of an image ended.
#[derive(Clone, Copy, PartialEq, Eq, Debug)]
pub enum Ending {
    /// It halted, and the program's status stands.
    Returned,
    /// It halted for want of stack.
    StackExhausted,
    /// All periods of power ran, and it neither halted nor faulted.
    OutOfPower,
    /// A machine fault of the instruction at this address.
    MachineFault(u32),
}

impl Ending {
    /// The ending of a run that went so and left this reason.
    pub fn of(went: Went, reason: u32) -> Ending
        ensures { result ≡ ending_of went reason }
    {
        match went {
            Went::On => Ending::OutOfPower,
            Went::Halted => {
                if reason == 1 {
                    Ending::StackExhausted
                } else {
                    Ending::Returned
                }
            }
            Went::Faulted(at) => Ending::MachineFault(at),
        }
    }
}
