/// What is wrong in a line of a source.
#[derive(Clone, Copy, PartialEq, Eq, Debug)]
pub enum LineFault {
    /// A byte with which no token begins (C11 6.4).
    BadByte,
    /// A `/*` without its `*/` (C11 6.4.9).
    OpenComment,
    /// A literal that its line or the text ends, or a character constant without exactly one
    /// character (C11 6.4.4.4, 6.4.5).
    OpenLiteral,
    /// A backslash with no escape behind it, or with one whose value is over 255.
    BadEscape,
    /// A number that is no integer constant, or whose value no type of its list holds (C11
    /// 6.4.4.1).
    BadNumber,
    /// A `#` that is no line marker.
    BadDirective,
    /// A token that no unit goes on with, or the end of the text where a unit isn't complete (C11
    /// 6.9).
    Syntax,
    /// A token nested more than 200 deep.
    Nesting,
    /// A `[` with which brackets in a row, each directly behind the one before, pass 512.
    Dimensions,
    /// A node that breaks the typing rule of that number.
    Rule(u32),
}

/// What a source, or what is made of it, may have only so much of.
#[derive(Clone, Copy, PartialEq, Eq, Debug)]
pub enum Quantity {
    /// Bytes of the source, at most 4194304.
    Source,
    /// Words of the parameters of one function, at most 8.
    Parameters,
    /// Bytes of one type, at most 1048576.
    Size,
    /// Bytes of all statics, at most 1048576.
    Statics,
    /// Bytes of one function's frame, at most 65536.
    Frame,
    /// Bytes of the code, at most 1044480.
    Code,
    /// Pointers, arrays and functions that the type of one typedef name is derived by (C11
    /// 6.2.5p20), at most 250.
    Derivations,
}

/// Where a source is at fault.
#[derive(Clone, Copy, PartialEq, Eq, Debug)]
pub struct Place {
    /// The line on which the place begins, counted from 1.
    pub line: u32,
    /// The byte of the source at which it begins, counted from 0.
    pub start: u32,
    /// The byte behind its token; `start` where no token stands there.
    pub end: u32,
}

/// Why a source is refused.
#[derive(Clone, Copy, PartialEq, Eq, Debug)]
pub enum SourceFault {
    /// The place, and what is wrong there.
    Line { place: Place, why: LineFault },
    /// A quantity over its limit, and how much there is.
    Limit { quantity: Quantity, count: u64 },
    /// Memory ran out.
    OutOfMemory,
}

/// What a quantity over its limit is counted of.
#[derive(Debug, Drop)]
pub enum Subject {
    /// The source, its statics or its code as a whole.
    Whole,
    /// The function or object of this name.
    Named(Vec<u8>),
    /// The function, object or typedef name that is declared at the place.
    Declared(Place, Vec<u8>),
}
