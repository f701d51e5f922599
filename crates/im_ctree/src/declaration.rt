use super::declarator::Declarator;
use super::expression::Expression;
use super::specifier::Specifiers;

/// A declaration (C11 6.7).
pub struct Declaration {
    pub specifiers: Specifiers,
    pub declarators: Vec<InitDeclarator>,
}

impl Drop for Declaration {
    fn drop(self) {
        let Declaration {
            specifiers: _,
            declarators: _,
        } = self;
    }
}

/// A declarator, with an initialiser where one is written.
pub struct InitDeclarator {
    pub declarator: Declarator,
    pub initializer: Option<Initializer>,
}

impl Drop for InitDeclarator {
    fn drop(self) {
        let InitDeclarator {
            declarator: _,
            initializer: _,
        } = self;
    }
}

/// An initialiser (C11 6.7.9).
pub enum Initializer {
    Value(Expression),
    /// The number of the opening brace, and the initialisers in braces.
    List(u32, Vec<Initializer>),
}

impl Drop for Initializer {
    fn drop(self) {
        match self {
            Initializer::Value(_) => {}
            Initializer::List(_, _) => {}
        }
    }
}
