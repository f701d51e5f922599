ghost use Rattle.im_block_laws.specs.Laws.{CutsKeepCodeLaw};
ghost use Rattle.im_block_laws.specs.PointsTo.{PointsLaw};
ghost use Rattle.im_block_laws.specs.Refining.{RefinesReflexive, RefinesTransitive};
ghost use Rattle.im_block_laws.specs.Row.{RowLaw};
ghost use Rattle.im_block_laws.specs.Sample.{SampleLaw};

/// Cuts that are added leave the cuts that must stand, the costs, and what is known of the code.
pub fn cuts_keep_code_law()
    ensures { CutsKeepCodeLaw }
{}

/// A unit made by hand, run by its meaning.
pub fn sample_law()
    ensures { SampleLaw }
{}

/// Five accesses by hand: which reads are exposed, and by which writes they are met.
pub fn row_law()
    ensures { RowLaw }
{}

/// The tags of a closed points-to assignment are sound.
pub fn points_law()
    ensures { PointsLaw }
{}

/// Refinement of outcomes is an order, so a chain of passes, each of which refines, refines.
pub fn refines_transitive_law()
    ensures reflexive { RefinesReflexive }
    ensures transitive { RefinesTransitive }
{}
