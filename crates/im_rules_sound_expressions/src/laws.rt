//! What the typing rules give of expressions and types. Each law is a function with an empty body, whose contract says it.
ghost use Rattle.im_rules_sound_expressions.specs.Laws.{DeclaresLaw, ExpressionsLaw, NamesLaw};
ghost use Rattle.im_rules_sound_expressions.specs.Laws.{PartsLaw};

/// A member of a well-typed struct that stands at no place is a well-typed value.
pub fn parts_law()
    ensures { PartsLaw }
{}

/// What declarators declare and type names name is within the limit of sizes, where each array in
/// them is.
pub fn types_law()
    ensures declares { DeclaresLaw }
    ensures names { NamesLaw }
{}

/// What the rules type an expression to is well typed, in a context of which the program has all
/// names and literals.
pub fn expressions_law()
    ensures { ExpressionsLaw }
{}
