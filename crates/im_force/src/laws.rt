ghost use Rattle.im_force.specs.Laws.{ForceKeepsLaw};

/// Forced cuts change nothing else that a run does, and no two of them stand side by side.
pub fn force_keeps_law()
    ensures { ForceKeepsLaw }
{}
