ghost use Rattle.im_alloc_laws.specs.Laws.{PlacedCodeLaw};

use im_alloc_relation::placed_law;

/// Placed code whose added accesses have numbers of their own keeps what is known of the block
/// code, costs at most what the block code does, and its runs hold the same tags.
pub fn placed_code_law()
    ensures { PlacedCodeLaw }
{
    placed_law();
}
