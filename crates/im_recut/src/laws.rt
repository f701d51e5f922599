ghost use Rattle.im_recut.specs.Laws.{RecutKeepsLaw};

use im_cut::{apart_law, same_law};
use im_cut_gap::{further_law, gap_apart_law, gap_same_law};

/// Gap cuts and greedy cuts change nothing else that a run does, sections are right by their tags,
/// no two cuts stand side by side where none did, and no path is too long for the longest gap that
/// was asked for.
pub fn recut_keeps_law()
    ensures { RecutKeepsLaw }
{
    same_law();
    apart_law();
    gap_same_law();
    gap_apart_law();
    further_law();
}
