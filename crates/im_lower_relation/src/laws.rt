//! What lowering keeps. Each law is a function with an empty body, whose contract says it.
ghost use Rattle.im_lower_relation.specs.Laws.{LowerKeepsLaw, LoweredFormLaw};

/// What a program becomes runs as the program, wherever the program's meaning is defined.
pub fn lower_keeps_law()
    ensures { LowerKeepsLaw }
{}

/// What a program becomes is well formed, and has a loop edge in each cycle.
pub fn lowered_form_law()
    ensures { LoweredFormLaw }
{}
