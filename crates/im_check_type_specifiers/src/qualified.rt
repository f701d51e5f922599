use im_types::Type;

/// A type, and whether what has it is const (C11 6.7.3); of an array, whether its elements are.
#[derive(Debug, Drop)]
pub struct Qualified {
    pub constant: bool,
    pub ty: Type,
}
