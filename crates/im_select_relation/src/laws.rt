ghost use Rattle.im_select_relation.specs.Law.{SelectKeeps};
ghost use Rattle.im_select_relation.specs.Symbolic.{FrameLaw, LinesLaw};
ghost use Rattle.im_select_relation.specs.OperatorLaws.{WordsAgree};

/// Where placed code is selected and linked, the machine follows it: the same outcome, the same
/// accesses.
pub fn select_keeps_law()
    ensures { SelectKeeps }
{}

/// Lines that are selected, once laid at their places, are what the law of selection asks for.
pub fn lines_law()
    ensures { LinesLaw }
{}

/// The layout of a frame is what the law of selection asks for, where the linking has its places.
pub fn frame_law()
    ensures { FrameLaw }
{}

/// The words of C's numbers are the machine's, and so are the signed numbers of words.
pub fn words_agree_law()
    ensures { WordsAgree }
{}
