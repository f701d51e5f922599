ghost use Rattle.im_select_addresses.specs.Addresses.{FramesLaw};
ghost use Rattle.im_select_addresses.specs.Statics.{StaticsLaw};
ghost use Rattle.im_select_addresses.specs.Named.{ShownLaw};

/// With one map of all objects of a unit, each function's objects lie where the layout of its frame
/// has them.
pub fn frames_law()
    ensures { FramesLaw }
{}

/// Statics that are placed one behind the other lie in their region, apart, each with an unused
/// byte behind it.
pub fn statics_law()
    ensures { StaticsLaw }
{}

/// The objects that an image names show what the program's statics hold: numbers as they are, and a
/// pointer by the static in which, or directly behind which, its place is.
pub fn shown_law()
    ensures { ShownLaw }
{}
