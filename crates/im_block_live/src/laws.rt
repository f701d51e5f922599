ghost use Rattle.im_block_live.specs.Laws.{LiveWithinLaw};

/// Nothing lives that isn't a register of the function.
pub fn live_within_law()
    ensures { LiveWithinLaw }
{}
