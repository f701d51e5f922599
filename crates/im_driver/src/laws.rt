ghost use Rattle.im_driver.specs.Steps.{KeptLaw, ProgramLaw, WrittenLaw};

use im_keeps_built::built_keeps_law;
use im_keeps_writes::built_writes_law;
use im_rules_sound_spelt::{spelt_law, statics_law, word_names_law, words_law};

/// The tree of a source is as the checker wants it.
pub(crate) fn written_law()
    ensures { WrittenLaw }
{
    words_law();
    spelt_law();
}

/// What the checker gives of a source's tree is well typed and within limits, and an image can name
/// its statics.
pub(crate) fn program_law()
    ensures { ProgramLaw }
{
    words_law();
    spelt_law();
    word_names_law();
    statics_law();
}

/// What is built of such a program keeps the source's meaning, with the frames that are told.
pub(crate) fn kept_law()
    ensures { KeptLaw }
{
    built_keeps_law();
    built_writes_law();
}
