ghost use Rattle.im_serve.specs.Laws.{ServicesLaw};

/// What holds of each row of the table: parameter and result are integers at least as wide as
/// `int`, a service takes bytes from the front of the input and puts some behind the output, up to
/// its capacity, and what it does depends on the low 32 bits of its argument alone.
pub fn services_law()
    ensures { ServicesLaw }
{}
