ghost use Rattle.im_rv_reach.specs.Laws.{Joins};

/// Some steps and then some more are one run.
pub fn joins_law()
    ensures { Joins }
{}
