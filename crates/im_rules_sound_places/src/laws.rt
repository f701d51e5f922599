//! What stands before and behind external declarations. The law is a function with an empty body, whose contract says it.
ghost use Rattle.im_rules_sound_places.specs.Laws.{ExternalsLaw, StartLaw};

/// All is in order before a unit, and behind external declarations that are typed; what was
/// declared before stays.
pub fn places_law()
    ensures start { StartLaw }
    ensures externals { ExternalsLaw }
{}
