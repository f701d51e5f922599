ghost use Rattle.std.specs.Prelude.{◌<◌, IfSome};
ghost use Rattle.im_typed.specs.declared.expression.Expr.{size-Expr};
ghost use Rattle.im_typed.specs.declared.expression.Place.{size-Place};

use im_num::Kind;
use im_serve::Service;
use im_store::{BinaryOp, Comparison, UnaryOp};

/// What is read or written at a place: one cell, or each cell of a struct.
#[derive(Clone, Copy, Debug)]
pub enum Access {
    Scalar(Kind),
    /// A struct of the table, by its number, and how many cells it has.
    Struct { number: u32, cells: u32 },
}

/// How an assignment changes what stands at its place (C11 6.5.16.2, 6.5.2.4, 6.5.3.1).
#[derive(Clone, Copy, Debug)]
pub enum Change {
    /// The old value, of kind `kind`, is converted to the kind `at`, of which `op` is taken, and
    /// the result is converted back to `kind`.
    Number { kind: Kind, op: BinaryOp, at: Kind },
    /// The pointer moves by that many elements of `size` bytes, to lower offsets if `back`.
    Move { size: u32, back: bool },
}

/// An expression that designates a place in an object (an lvalue, C11 6.3.2.1).
#[cycle(expression)]
#[derive(Debug)]
pub enum Place {
    /// A static object of the program, by its number.
    Static(u32),
    /// A parameter or local object of the function, by its number.
    Local(u32),
    /// What a pointer points to.
    Target(Box<Expr>),
    /// A member, by its offset in bytes.
    Member(Box<Place>, u32),
}

impl Drop for Place {
    #[cycle(expression)]
    fn drop(self) {
        match self {
            Place::Static(_) => {}
            Place::Local(_) => {}
            Place::Target(_) => {}
            Place::Member(_, _) => {}
        }
    }
}

impl Place {
    /// The pointer that a place is reached by, if it is reached by one.
    fn into_pointer(mut self) -> Option<Expr>
        ensures { IfSome result (λ pointer. size-Expr pointer < size-Place self) }
    {
        loop {
            match self {
                Place::Static(_) => return None,
                Place::Local(_) => return None,
                Place::Target(pointer) => return Some(Box::into_inner(pointer)),
                Place::Member(whole, _) => self = Box::into_inner(whole),
            }
        }
    }
}

/// An expression. Its operands are evaluated from left to right.
#[cycle(expression)]
#[derive(Debug)]
pub enum Expr {
    /// An integer constant and its kind (C11 6.4.4.1, 6.4.4.4).
    Number(Kind, i128),
    /// The null pointer.
    Null,
    /// The value that stands at a place.
    Read(Access, Box<Place>),
    /// `&` of a place, and an array as the pointer to its first element.
    Address(Box<Place>),
    /// A conversion from one integer kind to another (C11 6.3.1.3).
    Convert(Kind, Box<Expr>),
    Unary(UnaryOp, Kind, Box<Expr>),
    /// Both operands have been converted to the kind; of a shift, the left one alone.
    Binary(BinaryOp, Kind, Box<Expr>, Box<Expr>),
    /// A pointer moved by a number of elements of `size` bytes, to lower offsets if `back`.
    Move {
        size: u32,
        back: bool,
        pointer: Box<Expr>,
        by: Box<Expr>,
    },
    /// An integer and a pointer, in this order of evaluation, as `i + p` and `i[p]`.
    MoveBy {
        size: u32,
        by: Box<Expr>,
        pointer: Box<Expr>,
    },
    /// The difference of two pointers, in elements of `size` bytes.
    Distance {
        size: u32,
        left: Box<Expr>,
        right: Box<Expr>,
    },
    /// Both operands have been converted to the kind; `Ptr` of two pointers.
    Compare(Comparison, Kind, Box<Expr>, Box<Expr>),
    Not(Box<Expr>),
    And(Box<Expr>, Box<Expr>),
    Or(Box<Expr>, Box<Expr>),
    /// `a ? b : c`.
    Choose(Box<Expr>, Box<Expr>, Box<Expr>),
    /// The left value is dropped.
    Comma(Box<Expr>, Box<Expr>),
    /// A cast to `void`.
    Discard(Box<Expr>),
    Assign(Access, Box<Place>, Box<Expr>),
    /// A compound assignment.
    Update {
        place: Box<Place>,
        change: Change,
        by: Box<Expr>,
    },
    /// `++` and `--`: a change by 1. With `old` its value is the old one, as that of the postfix
    /// operators is.
    Increment {
        place: Box<Place>,
        change: Change,
        old: bool,
    },
    /// A member of a struct that stands at no place: its value's cells from number `from` on.
    Part {
        from: u32,
        access: Access,
        whole: Box<Expr>,
    },
    /// A call of a function of the program, by its number.
    Call(u32, Vec<Expr>),
    /// A call of a service without a parameter.
    Serve(Service),
    /// A call of a service with its argument.
    ServeWith(Service, Box<Expr>),
}

impl Drop for Expr {
    /// A loop goes down what is converted, what stands in front of a comma, and what an element is
    /// one of, so that chains of them take no stack.
    #[cycle(expression)]
    fn drop(mut self) {
        loop {
            match self {
                Expr::Convert(_, operand) => self = Box::into_inner(operand),
                Expr::Discard(operand) => self = Box::into_inner(operand),
                Expr::Comma(left, _right) => self = Box::into_inner(left),
                Expr::Move {
                    size: _,
                    back: _,
                    pointer,
                    by: _by,
                } => self = Box::into_inner(pointer),
                Expr::MoveBy {
                    size: _,
                    by: _by,
                    pointer,
                } => self = Box::into_inner(pointer),
                Expr::Read(_, place) => match Box::into_inner(place).into_pointer() {
                    Some(pointer) => self = pointer,
                    None => return,
                },
                Expr::Address(place) => match Box::into_inner(place).into_pointer() {
                    Some(pointer) => self = pointer,
                    None => return,
                },
                Expr::Number(_, _) => return,
                Expr::Null => return,
                Expr::Unary(_, _, _operand) => return,
                Expr::Binary(_, _, _left, _right) => return,
                Expr::Distance {
                    size: _,
                    left: _left,
                    right: _right,
                } => return,
                Expr::Compare(_, _, _left, _right) => return,
                Expr::Not(_operand) => return,
                Expr::And(_left, _right) => return,
                Expr::Or(_left, _right) => return,
                Expr::Choose(_test, _first, _second) => return,
                Expr::Assign(_, _place, _value) => return,
                Expr::Update {
                    place: _place,
                    change: _,
                    by: _by,
                } => return,
                Expr::Increment {
                    place: _place,
                    change: _,
                    old: _,
                } => return,
                Expr::Part {
                    from: _,
                    access: _,
                    whole: _whole,
                } => return,
                Expr::Call(_, _arguments) => return,
                Expr::Serve(_) => return,
                Expr::ServeWith(_, _operand) => return,
            }
        }
    }
}
