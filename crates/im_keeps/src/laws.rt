ghost use Rattle.im_keeps.specs.Laws.{RefinedLaw, SilentLaw};

/// An image that keeps a meaning keeps each meaning that this one refines: what a pass of the
/// compiler promises of its source and its target carries over to the written image.
pub fn refined_law()
    ensures { RefinedLaw }
{}

/// An image that shows nothing, however often power comes, keeps no source that writes.
pub fn silent_law()
    ensures { SilentLaw }
{}
