ghost use Rattle.im_rtlib_laws.specs.SectionsLaws.{JoinsLaw, SectionsLaw, TouchedLaw};

/// Touches in order, and then more of them, are in order.
pub fn joins_law()
    ensures { JoinsLaw }
{}

/// In a run whose touches are in order, a section that stores the selector of the output's length
/// makes that one store, none writes what it read of the runtime's words, and a length is stored
/// only where the other is selected.
pub fn sections_law()
    ensures { SectionsLaw }
{}

/// A run whose touches are in order has them in order at each time.
pub fn touched_law()
    ensures { TouchedLaw }
{}
