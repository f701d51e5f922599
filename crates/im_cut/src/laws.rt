ghost use Rattle.im_cut.specs.Laws.{ApartLaw, SameLaw, SweepLaw};

/// Greedy cuts are further cuts alone.
pub fn same_law()
    ensures { SameLaw }
{}

/// No greedy cut stands beside another cut.
pub fn apart_law()
    ensures { ApartLaw }
{}

/// What one sweep gives has each cut with its dependence, and is sectioned.
pub fn sweep_law()
    ensures { SweepLaw }
{}
