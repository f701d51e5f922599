ghost use Rattle.im_replay_witness.specs.Counter.{CounterLaw, CounterReplaysLaw, CounterShowsLaw};
ghost use Rattle.im_replay_witness.specs.Loop.{LoopLaw};

/// A loop of one cut, 239 words with the runtime, has what the compiler owes.
pub fn loop_law()
    ensures { LoopLaw }
{}

/// A loop that reads a word, adds 1, makes a cut that saves x5, and writes the word has what the
/// compiler owes.
pub fn counter_law()
    ensures { CounterLaw }
{}

/// So it replays under every list of periods.
pub fn counter_replays_law()
    ensures { CounterReplaysLaw }
{}

/// Its output never shrinks.
pub fn counter_shows_law()
    ensures { CounterShowsLaw }
{}
