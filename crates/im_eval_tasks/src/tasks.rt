use im_eval_machine::{Here, Last};
use im_eval_store::Value;
use im_num::Kind;
use im_serve::Service;
use im_store::{BinaryOp, Comparison};
use im_typed::{Access, Case, Change, Expr, Piece, Stmt};

/// An operator whose left operand comes.
#[derive(Clone, Copy)]
pub enum Left {
    Binary(BinaryOp, Kind),
    Move { size: u32, back: bool },
    MoveBy { size: u32 },
    Distance { size: u32 },
    Compare(Comparison),
    And,
    Or,
}

/// What is done with a value, whatever it is.
#[derive(Clone, Copy)]
pub enum Whole<'p> {
    /// It is dropped, and the right operand of the comma evaluated.
    Comma(&'p Box<Expr>),
    Discard,
    /// A member of a struct.
    Part { from: u32, access: Access },
    /// It is stored at a place.
    Store { access: Access, place: Value },
}

/// What is done at a place.
#[derive(Clone, Copy)]
pub enum At<'p> {
    Read(Access),
    Address,
    Assign(Access, &'p Box<Expr>),
    /// What stands there is stored at the target of an assignment.
    Source { access: Access, target: Value },
    Update(Change, &'p Box<Expr>),
    Increment(Change, bool),
}

/// A call whose arguments are evaluated.
#[derive(Drop)]
pub struct Call<'p> {
    /// The number of the function.
    pub function: u32,
    /// The arguments that are evaluated, in order.
    pub ready: Vec<Value>,
    /// The arguments that aren't.
    pub rest: &'p [Expr],
}

/// A loop: its test comes before each turn, its step behind each.
#[derive(Clone, Copy)]
pub struct Loop<'p> {
    pub test: &'p Expr,
    pub step: Option<&'p Expr>,
    pub body: &'p Box<Stmt>,
}

/// A switch, whose block is entered at one of its labels.
#[derive(Clone, Copy)]
pub struct Switch<'p> {
    pub cases: &'p Vec<Case>,
    /// The number of the statement before which the block is entered where no label has the value.
    pub otherwise: u32,
    pub block: &'p Vec<Stmt>,
}

/// The statements of a block from one of them on.
#[derive(Clone, Copy)]
pub struct Statements<'p> {
    pub block: &'p Vec<Stmt>,
    /// The number of the first of them.
    pub next: usize,
}

/// An initialiser: the local, its pieces, and the number of the first one that isn't stored yet.
#[derive(Clone, Copy)]
pub struct Initialiser<'p> {
    pub local: u32,
    pub pieces: &'p Vec<Piece>,
    pub next: usize,
}

/// What a statement still does, once the value of its expression is there.
#[derive(Clone, Copy)]
pub enum Use<'p> {
    Drop,
    Return,
    /// The value of the first piece that is left comes.
    Piece(Initialiser<'p>),
    Branch(&'p Box<Stmt>, &'p Box<Stmt>),
    /// The test of a loop comes.
    Turn(Loop<'p>),
    /// The step of a loop comes.
    Again(Loop<'p>),
    /// The value of a switch comes.
    Enter(Switch<'p>),
}

/// What a statement still does, once a statement in it ended.
#[derive(Clone, Copy)]
pub enum Rest<'p> {
    /// The statements of a block behind the one that ended.
    Statements(Statements<'p>),
    /// The body of a loop ended.
    Body(Loop<'p>),
    /// The first statement of a `for` ended.
    First(Loop<'p>),
    /// The block of a switch ended.
    Switch,
}

/// Where a call goes on when its function's body ended.
#[derive(Clone, Copy)]
pub struct Caller {
    /// The number of the function that was called.
    pub function: u32,
    /// The caller's activation.
    pub here: Here,
    /// The bytes of stack in use at the call.
    pub depth: u32,
}

/// An operator of which the value of an operand comes, which is used.
#[derive(Drop)]
pub enum Operand<'p> {
    Last(Last),
    /// The left operand comes; the right one may be evaluated.
    Left(Left, &'p Box<Expr>),
    /// The first operand of `?:` comes.
    Choose(&'p Box<Expr>, &'p Box<Expr>),
    /// The argument of a service comes.
    Serve(Service),
    /// The amount of a compound assignment comes.
    Change {
        place: Value,
        change: Change,
        /// The old value.
        before: Value,
    },
    /// The pointer to a place comes.
    Target,
    /// An argument comes.
    Argument(Call<'p>),
}

/// What is still to do.
#[derive(Drop)]
pub enum Task<'p> {
    Operand(Operand<'p>),
    /// The value of an expression comes.
    Whole(Whole<'p>),
    Use(Use<'p>),
    /// A place comes.
    At(At<'p>),
    Member(u32),
    /// The end of a statement comes.
    Rest(Rest<'p>),
    Leave(Caller),
}
