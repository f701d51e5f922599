ghost use Rattle.im_gap.specs.Laws.{RankLaw, CallsLaw};
ghost use Rattle.im_gap.specs.FlowLaws.{AlongLaw, GapLaw, LongPeriodsLaw, OneGapLaw, StepLaw};

/// A number for each word that falls along each edge of its flow bounds the walks of a code.
pub fn rank_law()
    ensures { RankLaw }
{}

/// A code with a call within a call, their returns, and a cut behind each call has a longest gap.
pub fn calls_law()
    ensures { CallsLaw }
{}

/// A step on code goes along the static flow, but for returns, flips and halts.
pub fn step_law()
    ensures { StepLaw }
{}

/// No section of a run that goes along the flow is longer than the longest gap.
pub fn gap_law()
    ensures { GapLaw }
{}

/// A code has at most one longest gap.
pub fn one_gap_law()
    ensures { OneGapLaw }
{}

/// A run that has what the replay theorem asks goes along the flow of its code.
pub fn along_law()
    ensures { AlongLaw }
{}

/// A period of at least K instructions commits or ends the run, whatever periods came before; more
/// such periods than the run has commits end it.
pub fn long_periods_law()
    ensures { LongPeriodsLaw }
{}
