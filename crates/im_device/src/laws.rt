ghost use Rattle.im_device.specs.Laws.{RunLaw, SplitTraceLaw};
ghost use Rattle.im_device.specs.LoadedLaws.{BootLaw, LoadedLaw, StaysLaw, WholeLaw};

/// A run of a + b steps is one of b steps behind one of a steps.
pub fn run_law()
    ensures { RunLaw }
{}

/// A run under a list of periods followed by another is the run under the second list on the memory
/// that the first left, unless the first ended the run by a halt or a fault.
pub fn split_trace_law()
    ensures { SplitTraceLaw }
{}

/// A device that has halted or faulted is changed by no period.
pub fn stays_law()
    ensures { StaysLaw }
{}

/// With the mask 0 power fails between two instructions.
pub fn whole_law()
    ensures { WholeLaw }
{}

/// Each byte of a loaded memory is below 256.
pub fn loaded_law()
    ensures { LoadedLaw }
{}

/// Register buffer 0 of a loaded memory is the boot buffer of the image's entry and the stack's
/// end.
pub fn boot_law()
    ensures { BootLaw }
{}
