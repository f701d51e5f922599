use im_store::Number;

/// What an expression is as a constant expression (C11 6.6): whether it is one, and its value,
/// unless its evaluation meets a cause of undefined behaviour.
#[derive(Clone, Copy, Debug)]
pub struct Constancy {
    pub is_constant: bool,
    pub value: Option<Number>,
}

impl Constancy {
    pub const VARIABLE: Constancy = Constancy {
        is_constant: false,
        value: None,
    };
}
