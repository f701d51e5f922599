ghost use Rattle.im_keeps_until.specs.Laws.{UntilLaw};

/// What a run owes up to times as late as one likes it owes for ever, and behind its end it owes
/// nothing more.
pub fn until_law()
    ensures { UntilLaw }
{}
