ghost use Rattle.std.specs.Prelude.{MatchResult};
ghost use Rattle.im_typed.specs.ProgramOf.{program_of};
ghost use Rattle.im_pack.specs.Packed.{AreNamable};
ghost use Rattle.im_compile.specs.Built.{IsBuilt};
ghost use Rattle.im_compile.specs.Faults.{IsFaultOf};
ghost use Rattle.im_compile.specs.Passed.{AreOptions, IsSource};

use crate::built::Built;
use crate::fault::CompileFault;
use crate::finishing::finish;
use crate::making::{make, make_owned};
use crate::options::Options;
use crate::setting_out::set_out;
use im_typed::Prog;
use std::alloc::Global;

/// The image of a program, by all passes in a row. Its statics are such that an image can name
/// them.
pub fn compile(alloc: Global, prog: &Prog, options: Options) -> Result<Built, CompileFault>
    requires source { IsSource prog.now }
    requires named { AreNamable (program_of prog.now).statics }
    requires options { AreOptions options }
    ensures { MatchResult result (IsBuilt prog.now options) (IsFaultOf prog.now options.max_gap) }
{
    let made = make(alloc, prog, options.max_gap)?;
    let unlinked = set_out(alloc, made)?;
    finish(alloc, unlinked, options)
}

/// The image of a program, as `compile` gives it; the program is given back once it is block code.
pub fn compile_owned(alloc: Global, prog: Prog, options: Options) -> Result<Built, CompileFault>
    requires source { IsSource prog }
    requires named { AreNamable (program_of prog).statics }
    requires options { AreOptions options }
    ensures { MatchResult result (IsBuilt prog options) (IsFaultOf prog options.max_gap) }
{
    let made = make_owned(alloc, prog, options.max_gap)?;
    let unlinked = set_out(alloc, made)?;
    finish(alloc, unlinked, options)
}
