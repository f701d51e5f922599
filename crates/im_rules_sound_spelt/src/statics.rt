//! What a unit's statics are. Each law is a function with an empty body, whose contract says it.
ghost use Rattle.im_rules_sound_spelt.specs.StaticsLaws.{CellsLaw, NamableLaw, WordNamesLaw};

/// An identifier of a source that is shorter than 2^32 bytes is a name that an image takes.
pub fn word_names_law()
    ensures { WordNamesLaw }
{}

/// Within the limits each static has a cell, since it has a complete type; and an image can name
/// it, where it takes the identifiers of the unit.
pub fn statics_law()
    ensures cells { CellsLaw }
    ensures namable { NamableLaw }
{}
