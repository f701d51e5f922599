ghost use Rattle.im_replay_witness.specs.GapLoop.{LoopPlacedLaw};
ghost use Rattle.im_replay_witness.specs.Laws.{LoopGapLaw, LoopProgressesLaw};

/// The loop's longest gap is 45 instructions: recovery, and both of its own, the checkpoint up to
/// the flip.
pub fn loop_gap_law()
    ensures { LoopGapLaw }
{}

/// So the loop commits in every period of at least 45 instructions.
pub fn loop_progresses_law()
    ensures { LoopProgressesLaw }
{}

/// The premises on runs are met by the loop.
pub fn loop_placed_law()
    ensures { LoopPlacedLaw }
{}
