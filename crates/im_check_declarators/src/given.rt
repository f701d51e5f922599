use crate::declared::Declared;

/// What is known of what stands in a suffix.
#[derive(Drop)]
pub enum Given {
    /// The value of an array's length as a constant expression, if it is one.
    Length(Option<i128>),
    /// No length is written.
    Open,
    /// A function's parameters, as they are declared.
    Parameters(Vec<Declared>),
}
