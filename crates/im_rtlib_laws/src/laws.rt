ghost use Rattle.im_rtlib_laws.specs.Laws.{ExitLaw, GetcharLaw, PutcharLaw, ServesLaw, StackLaw};

/// `putchar` appends a byte where there is room, in at most 71 steps with the checkpoints', and
/// touches the length and the capacity, the byte, the other length, the selector.
pub fn putchar_law()
    ensures { PutcharLaw }
{}

/// `getchar` takes a byte where one is left, in at most 27 steps, and touches the position, the
/// input's length and the byte.
pub fn getchar_law()
    ensures { GetcharLaw }
{}

/// The routines and the checkpoint do what compiled code assumes of them.
pub fn serves_law()
    ensures { ServesLaw }
{}

/// A program that has returned ends with its status.
pub fn exit_law()
    ensures { ExitLaw }
{}

/// A program whose stack is exhausted ends with reason 1.
pub fn stack_law()
    ensures { StackLaw }
{}
