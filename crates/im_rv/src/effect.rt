/// How a loaded byte or half becomes a word (RISC-V Unprivileged ISA, 2.6).
#[derive(Clone, Copy)]
pub enum Extension {
    /// By copies of its highest bit.
    Sign,
    /// By zeros.
    Zero,
}

/// What an instruction does to registers and memory. Sizes are in bytes.
#[derive(Clone, Copy)]
pub enum Effect {
    /// rd takes a value.
    Puts {
        value: u32,
        next: u32,
    },
    /// No register changes.
    Goes {
        next: u32,
    },
    /// rd takes what is loaded.
    Loads {
        address: u32,
        size: u32,
        extension: Extension,
    },
    /// Memory takes the lowest bytes of a value.
    Stores {
        address: u32,
        size: u32,
        value: u32,
    },
    /// The run ends here.
    Stops,
}
