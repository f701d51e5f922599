//! What the typing rules give of bodies is well typed. Each law is a function with an empty body, whose contract says it.
ghost use Rattle.im_rules_sound_statements.specs.Laws.{InitialisersLaw, ItemsLaw, StatementsLaw};

/// What an initialiser gives fits its object's cells, each of them once.
pub fn initialisers_law()
    ensures { InitialisersLaw }
{}

/// Statements and blocks are well typed, and what they add are objects of the language.
pub fn statements_law()
    ensures statements { StatementsLaw }
    ensures items { ItemsLaw }
{}
