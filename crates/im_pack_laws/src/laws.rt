ghost use Rattle.im_pack_laws.specs.Laws.{LoadableLaw, LoadsLaw, NamedLaw, HoldsObjectsLaw};
ghost use Rattle.im_pack_laws.specs.Laws.{PackedLaw, PlacesLaw};

/// Linked code may be packed.
pub fn loadable_law()
    ensures { LoadableLaw }
{}

/// A packed program begins with the runtime, and its entry stands behind it.
pub fn packed_law()
    ensures { PackedLaw }
{}

/// Labels have the addresses of their lines.
pub fn places_law()
    ensures { PlacesLaw }
{}

/// Memory, as a packed image is loaded, holds the low page, the code and the input.
pub fn loads_law()
    ensures { LoadsLaw }
{}

/// Memory, as a packed image is loaded, holds the first values of the statics.
pub fn holds_objects_law()
    ensures { HoldsObjectsLaw }
{}

/// A packed image names the statics in order, at their places, with their cells.
pub fn named_law()
    ensures { NamedLaw }
{}
