ghost use Rattle.std.specs.Prelude.{◌≡◌, ◌||◌, [], ◌∷◌, MatchOption};
ghost use Rattle.im_ctree.specs.Tree as t;
ghost use Rattle.im_ctree.specs.Shape.{declarator_of};
ghost use Rattle.im_ctree.specs.Typedefs as typedefs;
ghost use Rattle.im_ctree_parts.specs.Lists.{list_from, specifier_in};

use im_ctree::{Core, Declarator, Specifier, SpecifierKind, SpecifierWord};

fn is_typedef(specifier: &Specifier) -> bool
    ensures { (rest : t.SpecifierList) → typedefs.has_typedef
        (t.more_specifiers (specifier_in specifier.now) rest) ≡
        (result || typedefs.has_typedef rest) }
{
    match &specifier.kind {
        SpecifierKind::Word(SpecifierWord::Typedef) => true,
        _ => false,
    }
}

/// Whether `typedef` is one of the specifiers (C11 6.7.1).
pub fn has_typedef(specifiers: &[Specifier]) -> bool
    ensures { result ≡ typedefs.has_typedef (list_from specifiers.now) }
{
    for specifier in specifiers {
        if is_typedef(specifier) {
            return true;
        }
    }
    false
}

/// The name that a declarator declares, if it has one (C11 6.7.6).
pub fn declared_name(declarator: &Declarator) -> Option<&[u8]>
    ensures { MatchOption result (typedefs.declared_name (declarator_of declarator.now) ≡ [])
        (λ name. typedefs.declared_name (declarator_of declarator.now) ≡ name.now ∷ []) }
{
    match &declarator.core {
        Core::Absent => None,
        Core::Name(name) => Some(name),
        Core::Inner(inner) => declared_name(inner),
    }
}
