ghost use Rattle.im_keeps_source.specs.MiddleLaws.{MiddleLaw};

use im_alloc_laws::placed_code_law;
use im_forward::registers_law;
use im_keeps_passes::code_bounds_law;
use im_recut::recut_keeps_law;

/// Locals in registers, forced cuts, places and the greedy cuts of placed code keep their lines of
/// the record of passes; between forced cuts and places nothing is cut.
pub fn middle_law()
    ensures { MiddleLaw }
{
    registers_law();
    placed_code_law();
    recut_keeps_law();
    code_bounds_law();
}
