//! What holds of the code that lowering makes. Each law is a function with an empty body, whose
//! contract says it.
ghost use Rattle.im_lower_plain.specs.Laws.{MadeLaw};

/// What is made of a program is what the relation asks of it.
pub fn made_law()
    ensures { MadeLaw }
{}
