ghost use Rattle.im_gap.specs.Bound.{GapBoundLaw};

/// The longest gap of a code has at most an instruction for each of its words, beside those of
/// recovery: a walk that came to a word twice could come to it any number of times.
pub fn gap_bound_law()
    ensures { GapBoundLaw }
{}
