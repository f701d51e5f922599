/// Which declarators are read (C11 6.7.6, 6.7.7).
#[derive(Clone, Copy, PartialEq, Eq, Debug)]
pub enum Form {
    /// Those that declare a name.
    Declared,
    /// In a parameter, those that declare a name and stand in parentheses.
    Guarded,
    /// In a parameter, those with a name and those without one.
    Either,
    /// Those without a name.
    Abstract,
}
