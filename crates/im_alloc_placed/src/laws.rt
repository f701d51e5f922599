ghost use Rattle.im_alloc_placed.specs.Laws.{CostsLaw, CutsKeepPlacesLaw};

/// Cuts that are added leave code placed, and placeable.
pub fn cuts_keep_places_law()
    ensures { CutsKeepPlacesLaw }
{}

/// A line that can be placed costs at most 50 words, slots and a cut counted.
pub fn costs_law()
    ensures { CostsLaw }
{}
