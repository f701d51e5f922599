ghost use Rattle.im_power.specs.Laws.{FirstFaultLaw, WrittenLaw};

/// The decimal text of periods is read back as these periods.
pub fn written_law()
    ensures { WrittenLaw }
{}

/// A fault with a line's number is that line's, and all lines before it are right.
pub fn first_fault_law()
    ensures { FirstFaultLaw }
{}
