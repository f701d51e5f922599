ghost use Rattle.im_replay.specs.Laws.{KeepsLaw, OutputLaw, ProgressLaw, ReachLaw, ReplayLaw};

/// A run whose power fails, between two instructions or within a store, follows the run that never
/// loses power, where the code has what the compiler owes.
pub fn replay_law()
    ensures { ReplayLaw }
{}

/// The output at an earlier moment is a prefix of that at a later one, and each is an output of the
/// run that never loses power.
pub fn output_law()
    ensures { OutputLaw }
{}

/// Where each section takes at most K instructions from power-up on, a period of K instructions
/// commits or ends the run; more than c of them end a run of c commits.
pub fn progress_law()
    ensures { ProgressLaw }
{}

/// Where the run that never loses power ends, all runs show prefixes of its output, end as it does,
/// and do so within as many periods of K instructions as it has commits, and one.
pub fn keeps_law()
    ensures { KeepsLaw }
{}

/// What the run that never loses power shows at a time with at most c commits before it is shown
/// after more than c periods of K instructions.
pub fn reach_law()
    ensures { ReachLaw }
{}
