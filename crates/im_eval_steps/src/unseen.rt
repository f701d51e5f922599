use im_store::Undefined;

/// Why a look at an expression gave no value.
#[derive(Clone, Copy, Debug)]
pub enum Unseen {
    /// What it does has no meaning.
    Undefined(Undefined),
    /// It was given up: by its tasks it may have a value.
    Elsewhere,
}
