ghost use Rattle.im_cut_gap.specs.Laws.{GapApartLaw, GapSameLaw};
ghost use Rattle.im_cut_gap.specs.Remaining.{FurtherLaw, RemainingLaw};

/// Gap cuts are further cuts alone.
pub fn gap_same_law()
    ensures { GapSameLaw }
{}

/// No gap cut stands beside another cut.
pub fn gap_apart_law()
    ensures { GapApartLaw }
{}

/// Where no path without a cut is too long, each block has a number for what is left of such paths.
pub fn remaining_law()
    ensures { RemainingLaw }
{}

/// Cuts that are added later, on paths of the code, leave no path longer.
pub fn further_law()
    ensures { FurtherLaw }
{}
