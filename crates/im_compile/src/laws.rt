ghost use Rattle.im_compile.specs.Passed.{ReadyLaw};

use im_alloc_laws::placed_code_law;
use im_alloc_placed::cuts_keep_places_law;
use im_block::added_cuts_law;
use im_block_laws::cuts_keep_code_law;
use im_compile_dependences::{force_names_law, place_names_law, recut_names_law, uncut_names_law};
use im_force::force_keeps_law;
use im_forward::registers_law;
use im_lower_relation::lowered_form_law;
use im_recut::recut_keeps_law;

/// What the passes make of a program is what those behind them ask.
pub fn ready_law()
    ensures { ReadyLaw }
{
    lowered_form_law();
    registers_law();
    added_cuts_law();
    force_keeps_law();
    cuts_keep_code_law();
    cuts_keep_places_law();
    placed_code_law();
    recut_keeps_law();
    uncut_names_law();
    force_names_law();
    place_names_law();
    recut_names_law();
}
