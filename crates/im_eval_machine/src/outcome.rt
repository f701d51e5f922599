use im_num::Var;
use im_store::Undefined;

/// Why a program ended.
#[derive(Clone, Copy, PartialEq, Eq, Debug)]
pub enum Reason {
    /// `main` returned.
    Returned,
    /// A function was called whose frame has no room on the stack.
    StackExhausted,
}

/// What a program does on an input (C11 5.1.2.3).
#[derive(Drop)]
pub enum Outcome {
    /// It does what has no meaning.
    Undefined(Undefined),
    /// It wants more fuel.
    More {
        /// The bytes written so far.
        output: Vec<u8>,
    },
    /// It ended.
    End {
        reason: Reason,
        /// What `main` returned; 0 where the stack is exhausted.
        status: i128,
        output: Vec<u8>,
        /// The statics, in the program's order.
        variables: Vec<Var>,
    },
}
