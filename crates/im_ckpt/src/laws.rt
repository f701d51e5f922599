ghost use Rattle.im_ckpt.specs.Laws.{CheckpointLaw, ResumeLaw};

/// Recovery restores the registers of the live buffer in 33 steps and goes to the place that it
/// names. None of its steps writes, also where power fails within one.
pub fn resume_law()
    ensures { ResumeLaw }
{}

/// From a cut up to the flip only the idle buffer changes, and then holds what is saved; one store
/// flips INDEX; the routine returns behind the cut and has changed x4 alone.
pub fn checkpoint_law()
    ensures { CheckpointLaw }
{}
