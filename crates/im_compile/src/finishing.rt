ghost use Rattle.std.specs.Prelude.{IfErr, IfOk, List};
ghost use Rattle.im_rv.specs.declared.code.Part.{Part};
ghost use Rattle.im_link.specs.Linking.{Holds};
ghost use Rattle.im_typed.specs.declared.program.Prog.{Prog as TypedProgram};
ghost use Rattle.im_typed.specs.ProgramOf.{program_of};
ghost use Rattle.im_pack.specs.Packed.{AreNamable};
ghost use Rattle.im_compile.specs.Built.{IsBuilt};
ghost use Rattle.im_compile.specs.Faults.{IsCodeFault};
ghost use Rattle.im_compile.specs.Made.{IsUnlinkedFrom};
ghost use Rattle.im_compile.specs.Passed.{AreOptions, IsSource};

use crate::built::Built;
use crate::fault::CompileFault;
use crate::laws::ready_law;
use crate::options::Options;
use crate::setting_out::Unlinked;
use im_gap::gap;
use im_gap_ranked::{linked_gap_law, linked_short_law};
use im_link_laws::linkable_law;
use im_pack::pack;
use std::alloc::Global;

/// The image of parts that were set out, with the stack and the room for output that the options
/// give; their longest gap is that with which the code was made. Of `CompileFault` it gives `Code`,
/// where the parts in this linker have more than 1044480 bytes, and `OutOfMemory`.
pub fn finish(alloc: Global, unlinked: Unlinked, options: Options) -> Result<Built, CompileFault>
    requires source { (prog : TypedProgram) × IsSource prog × AreNamable (program_of prog).statics
        × IsUnlinkedFrom prog options.max_gap unlinked }
    requires options { AreOptions options }
    ensures built { (prog : TypedProgram) → IsSource prog
        → IsUnlinkedFrom prog options.max_gap unlinked → IfOk result (IsBuilt prog options) }
    ensures limit { (parts : List Part) → Holds unlinked.linker parts
        → IfErr result (IsCodeFault parts) }
{
    ready_law();
    linkable_law();
    linked_gap_law();
    linked_short_law();
    let Unlinked {
        linker,
        statics,
        addresses,
        frames,
    } = unlinked;
    let code = linker.finish()?;
    let gap = gap(alloc, &code)?;
    let image = pack(
        alloc,
        &statics,
        &addresses,
        &code,
        options.stack,
        options.out_cap,
    )?;
    Ok(Built {
        image,
        gap,
        frames,
        cuts: code.cuts,
    })
}
