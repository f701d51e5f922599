ghost use Rattle.im_keeps_writes.specs.FunctionBound.{FunctionBoundLaw};

use im_alloc_laws::placed_code_law;
use im_block_laws::cuts_keep_code_law;
use im_force::force_keeps_law;
use im_forward::registers_law;
use im_recut::recut_keeps_law;

/// The instructions of one function have at most 256 bytes for each node of the typed function,
/// and 256 more: words are at most what the function costs, and no pass adds to that.
pub fn function_bound_law()
    ensures { FunctionBoundLaw }
{
    registers_law();
    force_keeps_law();
    cuts_keep_code_law();
    placed_code_law();
    recut_keeps_law();
}
