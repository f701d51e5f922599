//! What the typing rules give of a unit is well typed. The law is a function with an empty body, whose contract says it.
ghost use Rattle.im_rules_sound_unit.specs.Laws.{UnitsLaw};

/// Within the limits, what the rules type a unit to is a well-typed program within the limits of
/// typed programs.
pub fn units_law()
    ensures { UnitsLaw }
{}
