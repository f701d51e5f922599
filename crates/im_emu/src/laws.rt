ghost use Rattle.im_emu.specs.Laws.{PeriodsLaw, PlaceLaw};

/// Periods of power in two parts: the second part goes on from what the first left, counts that
/// have reached their type's end included.
pub fn periods_law()
    ensures { PeriodsLaw }
{}

/// The place of an address in the objects of an image: there is one, or none.
pub fn place_law()
    ensures { PlaceLaw }
{}
