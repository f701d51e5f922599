//! What holds of the code that lowering makes. Each law is a function with an empty body, whose
//! contract says it.
ghost use Rattle.im_lower_laws.specs.Laws.{SizedLaw};
ghost use Rattle.im_lower_laws.specs.Live.{WrittenFirstLaw};

/// The code of a well-typed program within the limits is ordered, names what is there, and is
/// small.
pub fn sized_law()
    ensures { SizedLaw }
{}

/// On no way through a function of a well-typed program that is lowered is a register read before
/// it was written, but for those in which its arguments come.
pub fn written_first_law()
    ensures { WrittenFirstLaw }
{}
