ghost use Rattle.std.specs.Prelude.{◌≡◌};
ghost use Rattle.im_cmd_lines.specs.Refusals.{refused_of};
ghost use Rattle.im_cmd.specs.Outcome.{ending_status, refusal_status};

use im_cmd_lines::{Ending, Refusal};

/// All was done, and a run halted.
pub const DONE: u8 = 0;

/// A run halted for want of stack, or an evaluation ended so.
pub const STACK_EXHAUSTED: u8 = 1;

/// The words name no command.
pub const USAGE: u8 = 2;

/// A source isn't built.
pub const REFUSED_SOURCE: u8 = 3;

/// A run neither halted nor faulted.
pub const OUT_OF_POWER: u8 = 4;

/// A file holds no image.
pub const REFUSED_IMAGE: u8 = 5;

/// A file's text is no trace's.
pub const REFUSED_TRACE: u8 = 6;

pub const UNREADABLE: u8 = 7;

pub const UNWRITABLE: u8 = 8;

/// Memory ran out.
pub const STARVED: u8 = 9;

pub const MACHINE_FAULT: u8 = 10;

/// What a source does on the input is undefined.
pub const UNDEFINED: u8 = 11;

/// Fuel ran out.
pub const OUT_OF_FUEL: u8 = 12;

/// The input is longer than the machine has room for.
pub const INPUT_TOO_LONG: u8 = 13;

/// Another file is longer than files of its kind may be.
pub const FILE_TOO_LONG: u8 = 14;

/// A file holds no memory.
pub const REFUSED_MEMORY: u8 = 15;

/// A period ends within a store, which the image's form doesn't allow.
pub const TORN_STORES: u8 = 16;

/// An image and a memory have different forms.
pub const OTHER_FORM: u8 = 17;

/// The exit status of a command that is refused.
pub fn status_of_refusal(refusal: &Refusal) -> u8
    ensures { result ≡ refusal_status (refused_of refusal.now) }
{
    match refusal {
        Refusal::CannotRead(_) => UNREADABLE,
        Refusal::BadSource(_, _) => REFUSED_SOURCE,
        Refusal::NotAnImage(_, _) => REFUSED_IMAGE,
        Refusal::CannotWrite(_) => UNWRITABLE,
        Refusal::InputTooLong(_, _) => INPUT_TOO_LONG,
        Refusal::FileTooLong(_, _) => FILE_TOO_LONG,
        Refusal::NotATrace(_, _) => REFUSED_TRACE,
        Refusal::TornStores => TORN_STORES,
        Refusal::NotAMemory(_, _) => REFUSED_MEMORY,
        Refusal::FormsDiffer(_, _, _, _) => OTHER_FORM,
        Refusal::OutOfMemory => STARVED,
    }
}

/// The exit status of a command whose run ended so.
pub fn status_of_ending(ending: Ending) -> u8
    ensures { result ≡ ending_status ending }
{
    match ending {
        Ending::Returned => DONE,
        Ending::StackExhausted => STACK_EXHAUSTED,
        Ending::OutOfPower => OUT_OF_POWER,
        Ending::MachineFault(_) => MACHINE_FAULT,
    }
}
