//! What the tokens of a source are read as is one list of words. The law is a function with an empty
//! body, whose contract says it.
ghost use Rattle.im_front.specs.Laws.{OneListLaw, OneWordLaw};

/// A token has one word, and so tokens have one list of words (C11 6.4).
pub fn one_word_law()
    ensures word { OneWordLaw }
    ensures words { OneListLaw }
{}
