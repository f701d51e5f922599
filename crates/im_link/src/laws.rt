ghost use Rattle.im_link.specs.Laws.{LaidLaw};

/// At the address of each line of a part stands the line's instruction; with a target, the one
/// whose immediate is the distance to the address of the target's label.
pub fn laid_law()
    ensures { LaidLaw }
{}
