ghost use Rattle.im_promote.specs.Laws.{CostLaw, FormedLaw, OrderedLaw, PlaceableLaw, PromoteLaw};
ghost use Rattle.im_promote.specs.Laws.{RestLaw, WrittenLaw};

/// Promoted code has each outcome that is defined.
pub fn promote_law()
    ensures { PromoteLaw }
{}

/// Promoted code is ordered as before.
pub fn ordered_law()
    ensures { OrderedLaw }
{}

/// No register of promoted code is read before it was written but those of arguments.
pub fn written_law()
    ensures { WrittenLaw }
{}

/// Promoted code is well formed.
pub fn formed_law()
    ensures { FormedLaw }
{}

/// Promoted code costs no more.
pub fn cost_law()
    ensures { CostLaw }
{}

/// Promoted code is placeable.
pub fn placeable_law()
    ensures { PlaceableLaw }
{}

/// Promoted code has the same statics, frames that may need as much, no cut where there was none,
/// and costs no more in all.
pub fn rest_law()
    ensures { RestLaw }
{}
