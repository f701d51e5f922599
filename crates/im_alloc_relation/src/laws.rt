ghost use Rattle.im_alloc_relation.specs.Placing.{PlaceKeeps, SlotsLaw};

/// Each register in a slot of its own is valid for any block code, whatever lives.
pub fn slots_law()
    ensures { SlotsLaw }
{}

/// Placed code has the block code's outcome and its events, but for accesses to slots and for more
/// cuts.
pub fn placed_law()
    ensures { PlaceKeeps }
{}
