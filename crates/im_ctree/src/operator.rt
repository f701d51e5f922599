/// `++` or `--` (C11 6.5.2.4, 6.5.3.1).
#[derive(Clone, Copy, PartialEq, Eq, Debug)]
pub enum StepOp {
    Increment,
    Decrement,
}

/// A unary operator (C11 6.5.3.2, 6.5.3.3).
#[derive(Clone, Copy, PartialEq, Eq, Debug)]
pub enum UnaryOp {
    AddressOf,
    Dereference,
    Plus,
    Minus,
    BitNot,
    Not,
}

/// A binary operator (C11 6.5.5 to 6.5.14).
#[derive(Clone, Copy, PartialEq, Eq, Debug)]
pub enum BinaryOp {
    Or,
    And,
    BitOr,
    BitXor,
    BitAnd,
    Equal,
    NotEqual,
    Less,
    Greater,
    LessEqual,
    GreaterEqual,
    ShiftLeft,
    ShiftRight,
    Add,
    Subtract,
    Multiply,
    Divide,
    Remainder,
}

/// An assignment operator (C11 6.5.16).
#[derive(Clone, Copy, PartialEq, Eq, Debug)]
pub enum AssignOp {
    /// `=`
    Plain,
    Multiply,
    Divide,
    Remainder,
    Add,
    Subtract,
    ShiftLeft,
    ShiftRight,
    BitAnd,
    BitXor,
    BitOr,
}
