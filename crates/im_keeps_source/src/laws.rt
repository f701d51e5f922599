ghost use Rattle.im_keeps_source.specs.Laws.{ProgramKeepsLaw, SourceLaw};

use im_keeps_passes::passes_keep_law;
use im_typed::end_law;

/// A well-typed program shows what a source has to show.
pub fn source_law()
    ensures { SourceLaw }
{
    end_law();
}

/// An image that a record of passes leads to from a well-typed program keeps that program.
pub fn program_keeps_law()
    ensures { ProgramKeepsLaw }
{
    passes_keep_law();
    source_law();
}
