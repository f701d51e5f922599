//! Sources that are typed are well typed. Each law is a function with an empty body, whose contract says it.
ghost use Rattle.im_rules_sound_spelt.specs.Laws.{NamesLaw, SourcesLaw, SpeltLaw, WordsLaw};

/// The word of a token is as every source has it: a name has a byte, a number is of its type,
/// characters are bytes.
pub fn words_law()
    ensures { WordsLaw }
{}

/// The tree that such words spell is as the typing laws want it; so within the limits what it is
/// typed to is well typed, and its statics have names of the source, or those of string literals.
pub fn spelt_law()
    ensures spelt { SpeltLaw }
    ensures sources { SourcesLaw }
    ensures names { NamesLaw }
{}
