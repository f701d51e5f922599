use crate::expression::{Access, Expr};

/// One expression of an initialiser, and where in its object it goes: bytes from the start.
#[derive(Debug)]
pub struct Piece {
    pub offset: u32,
    pub access: Access,
    pub value: Expr,
}

impl Drop for Piece {
    fn drop(self) {
        let Piece {
            offset: _,
            access: _,
            value: _,
        } = self;
    }
}

/// A label of a switch, and the number of the statement of its block before which it stands.
#[derive(Clone, Copy, Debug)]
pub struct Case {
    pub value: i128,
    pub at: u32,
}

/// A statement (C11 6.8).
#[derive(Debug)]
pub enum Stmt {
    Expr(Expr),
    /// A declaration without an initialiser is reached: its object is uninitialised again.
    Forget(u32),
    /// A declaration with an initialiser: its expressions in order, each stored before the next
    /// one is evaluated; then the cells without an expression become zero or null. `cells` is how
    /// many cells the object has.
    Initialise {
        local: u32,
        cells: u32,
        pieces: Vec<Piece>,
    },
    Block(Vec<Stmt>),
    If(Expr, Box<Stmt>, Box<Stmt>),
    While(Expr, Box<Stmt>),
    DoWhile(Box<Stmt>, Expr),
    /// Without a condition `test` is the number 1, without a step `step` is the number 0.
    For {
        first: Box<Stmt>,
        test: Expr,
        step: Expr,
        body: Box<Stmt>,
    },
    /// `otherwise` is where `default` stands, or the length of the block.
    Switch {
        value: Expr,
        cases: Vec<Case>,
        otherwise: u32,
        block: Vec<Stmt>,
    },
    Break,
    Continue,
    Return(Option<Expr>),
}

impl Drop for Stmt {
    fn drop(self) {
        match self {
            Stmt::Expr(_) => {}
            Stmt::Forget(_) => {}
            Stmt::Initialise {
                local: _,
                cells: _,
                pieces: _,
            } => {}
            Stmt::Block(_) => {}
            Stmt::If(_, _, _) => {}
            Stmt::While(_, _) => {}
            Stmt::DoWhile(_, _) => {}
            Stmt::For {
                first: _,
                test: _,
                step: _,
                body: _,
            } => {}
            Stmt::Switch {
                value: _,
                cases: _,
                otherwise: _,
                block: _,
            } => {}
            Stmt::Break => {}
            Stmt::Continue => {}
            Stmt::Return(_) => {}
        }
    }
}
