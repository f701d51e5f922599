use im_check_constancy::Annotated;
use im_typed::Place;
use im_types::Type;

/// A value: its type, and the typed expression with what it is as a constant expression.
#[derive(Drop)]
pub struct Value {
    pub ty: Type,
    pub expr: Annotated,
}

/// What an expression is typed to (C11 6.3.2.1): an lvalue, of const type or not, or a value.
#[derive(Drop)]
pub enum Term {
    Lvalue(bool, Type, Place),
    Value(Value),
}
