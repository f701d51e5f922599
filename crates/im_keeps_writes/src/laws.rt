ghost use Rattle.im_keeps_writes.specs.Laws.{BuiltWritesLaw};
ghost use Rattle.im_keeps_writes.specs.Bound.{BuiltBoundLaw};

use crate::function_bound_law;
use im_block::added_cuts_law;
use im_block_laws::cuts_keep_code_law;
use im_compile::ready_law;
use im_force::force_keeps_law;
use im_keeps_run::written_law;
use im_keeps_source::{lowers_law, middle_law};
use im_link_laws::linkable_law;
use im_pack_laws::{in_image_law, named_law};
use im_select_relation::select_keeps_law;

/// Whatever power does, an image that is built changes no byte of memory beside the runtime's
/// words, the register buffers, its objects, its stack and the output; of the buffers the idle one
/// alone, of the output the byte behind what is shown alone, of the stack none below x2.
pub fn built_writes_law()
    ensures { BuiltWritesLaw }
{
    ready_law();
    linkable_law();
    in_image_law();
    named_law();
    lowers_law();
    middle_law();
    force_keeps_law();
    added_cuts_law();
    cuts_keep_code_law();
    select_keeps_law();
    written_law();
}

/// In what is built of a program each function has at most 256 bytes for each of its nodes, and 256
/// more.
pub fn built_bound_law()
    ensures { BuiltBoundLaw }
{
    ready_law();
    function_bound_law();
}
