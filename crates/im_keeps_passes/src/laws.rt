ghost use Rattle.im_keeps_passes.specs.Laws.{CodeBoundsLaw, PassesKeepLaw};

use im_alloc_placed::cuts_keep_places_law;
use im_block::{added_cuts_law, each_line_law, section_law};
use im_block_laws::cuts_keep_code_law;
use im_force::force_keeps_law;
use im_gap::{along_law, gap_law};
use im_keeps_run::{end_kept_law, run_kept_law, written_law};
use im_keeps_until::until_law;

/// From the passes' promises alone: the written image keeps its program's meaning.
pub fn passes_keep_law()
    ensures { PassesKeepLaw }
{
    each_line_law();
    added_cuts_law();
    section_law();
    cuts_keep_code_law();
    cuts_keep_places_law();
    force_keeps_law();
    written_law();
    until_law();
    along_law();
    gap_law();
    end_kept_law();
    run_kept_law();
}

/// From the promises of the passes before selection: what the code costs and what its frames need,
/// by the program's nodes and needs, also where the program is too large for an image.
pub fn code_bounds_law()
    ensures { CodeBoundsLaw }
{
    cuts_keep_code_law();
    cuts_keep_places_law();
    force_keeps_law();
}
