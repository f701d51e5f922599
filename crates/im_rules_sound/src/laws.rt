//! What the typing rules give is well typed. Each law is a function with an empty body, whose contract says it.
ghost use Rattle.im_rules_sound.specs.Laws.{OperationsLaw, ReadsLaw, UnaryLaw, CastsLaw, CommasLaw};
ghost use Rattle.im_rules_sound.specs.Laws.{ChoicesLaw, AssignsLaw, StepsLaw, SubscriptsLaw};
ghost use Rattle.im_rules_sound.specs.Laws.{CallsLaw, MembersLaw};

/// An operator on well-typed values that its rule allows gives a well-typed value.
pub fn operations_law()
    ensures { OperationsLaw }
{}

/// A well-typed lvalue, read, is a well-typed value.
pub fn reads_law()
    ensures { ReadsLaw }
{}

/// A unary operator on a well-typed term that its rule allows gives a well-typed term, where what a
/// pointer points to is within the limit of sizes.
pub fn unary_law()
    ensures { UnaryLaw }
{}

/// Casts and commas of well-typed terms are well typed.
pub fn casts_law()
    ensures casts { CastsLaw }
    ensures commas { CommasLaw }
{}

/// `?:` of well-typed terms that its rules allow is well typed.
pub fn choices_law()
    ensures { ChoicesLaw }
{}

/// Assignments, and `++` and `--`, of well-typed terms that their rules allow are well typed, where
/// a pointer's target is within the limit of sizes.
pub fn assigns_law()
    ensures assigns { AssignsLaw }
    ensures steps { StepsLaw }
{}

/// Subscripts and calls of well-typed terms that their rules allow are well typed.
pub fn calls_law()
    ensures subscripts { SubscriptsLaw }
    ensures calls { CallsLaw }
{}

/// A member of a struct whose place is well typed has a well-typed place.
pub fn members_law()
    ensures { MembersLaw }
{}
