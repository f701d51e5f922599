ghost use Rattle.im_link_laws.specs.Laws.{LinkableLaw, LinkedLaw, StandLaw, WordsLaw};

/// The lines of each part of linked code stand one after another, and lead to where their labels
/// are.
pub fn stand_law()
    ensures { StandLaw }
{}

/// The parts of a program may be linked: no label stands twice, each that is used is within reach,
/// and the accesses that a cause names are there.
pub fn linkable_law()
    ensures { LinkableLaw }
{}

/// The parts of a program, linked, with their code in memory, are what the law of selection asks
/// for.
pub fn linked_law()
    ensures { LinkedLaw }
{}

/// Where no two cuts stand side by side, a program has at most 300 words more than its functions
/// cost.
pub fn words_law()
    ensures { WordsLaw }
{}
