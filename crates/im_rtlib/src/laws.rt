ghost use Rattle.im_rtlib.specs.Laws.{LinesLaw};

/// But for its cuts no line of a routine names x3, x4 or a register above x10, which a cut wouldn't
/// save. None is executed twice, so fewer than 30 instructions stand between two cuts.
pub fn lines_law()
    ensures { LinesLaw }
{}
