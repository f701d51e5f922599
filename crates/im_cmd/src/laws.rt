ghost use Rattle.im_cmd.specs.Laws.{JoinedLaw};

/// Two runs over a saved memory are one run under the periods of both, unless the first ended.
pub fn joined_law()
    ensures { JoinedLaw }
{}
