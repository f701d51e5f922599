//! What holds of the runs of well-typed programs where they end. Each law is a function with an
//! empty body, whose contract says it.
ghost use Rattle.std.specs.Prelude.{ℕ, ◌<◌, List};
ghost use Rattle.im_typed.specs.Programs.{Setting, run_of_main};
ghost use Rattle.im_typed.specs.Typing.{Each, IsWellTyped};
ghost use Rattle.im_eval_machine.specs.Endings.{EndLive};

/// Where the run of a well-typed program ends, its statics live.
pub fn statics_live_law()
    ensures { (g : Setting) (input : List ℕ) (fuel : ℕ) → IsWellTyped g.prog
        → Each (λ byte. byte < 256) input
        → EndLive g.prog.statics (run_of_main g fuel input fuel) }
{}

/// What a slice of bytes has is of 8 bits.
pub fn bytes_law(bytes: &[u8])
    ensures { Each (λ byte. byte < 256) bytes.now }
{}
