ghost use Rattle.im_alias.specs.Laws.{LeastLaw};
ghost use Rattle.im_alias.specs.Least.{LeastTagsLaw};
ghost use Rattle.im_alias.specs.PointsAt.{FinerLaw, PointsAtLaw};

/// The tags of a closed assignment by definitions are sound.
pub fn points_at_law()
    ensures { PointsAtLaw }
{}

/// A closed assignment by registers is one by definitions.
pub fn finer_law()
    ensures { FinerLaw }
{}

/// The tags of the least assignment by definitions are within each closed one by registers.
pub fn least_tags_law()
    ensures { LeastTagsLaw }
{}

/// What the rules of points-to derive is in each closed assignment.
pub fn least_law()
    ensures { LeastLaw }
{}
