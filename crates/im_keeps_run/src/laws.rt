ghost use Rattle.im_keeps_run.specs.Laws.{EndKeptLaw, RunKeptLaw};
ghost use Rattle.im_keeps_run.specs.WrittenLaws.{WrittenLaw};

use im_device::{boot_law, loaded_law};

/// Where the run that never loses power ends, the image keeps that end under every list of periods.
pub fn end_kept_law()
    ensures { EndKeptLaw }
{}

/// Where what that run shows is always a part of what the source writes, so it is under every list
/// of periods, and a halt comes only where that run has one.
pub fn run_kept_law()
    ensures { RunKeptLaw }
{}

/// An image that begins with the runtime loads, with any input, what the run of its code begins
/// with.
pub fn written_law()
    ensures { WrittenLaw }
{
    boot_law();
    loaded_law();
}
