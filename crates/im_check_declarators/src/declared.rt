//! What declarators declare.
ghost use Rattle.std.specs.Prelude.{◌≡◌};
ghost use Rattle.im_rules.specs.Declared as d;
ghost use Rattle.im_check_type_specifiers.specs.Specified.{qualified_of};
ghost use Rattle.im_check_declarators.specs.Shape.{declared_of};

use im_check_type_specifiers::Qualified;
use im_ctree::Name;
use im_types::Type;

/// What a declarator declares: a name, unless it is an abstract one, and its type; whether it is
/// const, or its elements are, or its result is.
#[derive(Drop)]
pub struct Declared {
    pub name: Option<Name>,
    pub constant: bool,
    pub ty: Type,
}

/// What an abstract declarator declares.
pub fn unnamed(q: Qualified) -> Declared
    ensures { declared_of result ≡ d.unnamed (qualified_of q) }
{
    Declared {
        name: None,
        constant: q.constant,
        ty: q.ty,
    }
}

/// What is declared by that name.
pub fn called(name: Name, q: Qualified) -> Declared
    ensures { declared_of result ≡ d.called name.items (qualified_of q) }
{
    Declared {
        name: Some(name),
        constant: q.constant,
        ty: q.ty,
    }
}
