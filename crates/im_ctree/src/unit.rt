use super::declaration::Declaration;
use super::declarator::Declarator;
use super::specifier::Specifiers;
use super::statement::Block;

/// The syntax tree of a translation unit (C11 6.9).
#[derive(Drop)]
pub struct Tree {
    pub externals: Vec<External>,
}

/// An external declaration.
pub enum External {
    Declaration(Declaration),
    Function(Function),
}

impl Drop for External {
    fn drop(self) {
        match self {
            External::Declaration(_) => {}
            External::Function(_) => {}
        }
    }
}

/// A function definition (C11 6.9.1).
pub struct Function {
    pub specifiers: Specifiers,
    pub declarator: Declarator,
    pub body: Block,
}

impl Drop for Function {
    fn drop(self) {
        let Function {
            specifiers: _,
            declarator: _,
            body: _,
        } = self;
    }
}
