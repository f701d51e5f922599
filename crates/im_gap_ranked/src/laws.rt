ghost use Rattle.im_gap_ranked.specs.Laws.{LinkedGapLaw, LinkedShortLaw};

/// The linked code of a program whose cycles have loop edges, and which has its forced cuts, has a
/// longest gap: at most an instruction for each word, beside those of recovery.
pub fn linked_gap_law()
    ensures { LinkedGapLaw }
{}

/// Where no path of a function without a cut costs more words than a limit, its longest gap is at
/// most 110 instructions more.
pub fn linked_short_law()
    ensures { LinkedShortLaw }
{}
