//! What specifiers say.
ghost use Rattle.std.specs.Prelude.{◌≡◌, ◌||◌, MatchOption};
ghost use Rattle.im_ctree.specs.Tree as t;
ghost use Rattle.im_check_name_map.specs.im_rules.Rules as u;
ghost use Rattle.im_check_name_map.specs.im_rules.Outline as o;
ghost use Rattle.im_ctree_parts.specs.Lists.{list_from, specifier_in};

use im_ctree::{Specifier, SpecifierKind, SpecifierWord};

fn is_typedef_word(specifier: &Specifier) -> bool
    ensures { (rest : t.SpecifierList) → u.is_typedef
        (t.more_specifiers (specifier_in specifier.now) rest) ≡ (result || u.is_typedef rest) }
{
    match &specifier.kind {
        SpecifierKind::Word(SpecifierWord::Typedef) => true,
        _ => false,
    }
}

/// Whether `typedef` is one of the words (C11 6.7.1).
pub fn is_typedef(specifiers: &[Specifier]) -> bool
    ensures { result ≡ u.is_typedef (list_from specifiers.now) }
{
    for specifier in specifiers {
        if is_typedef_word(specifier) {
            return true;
        }
    }
    false
}

fn is_extern_word(specifier: &Specifier) -> bool
    ensures { (rest : t.SpecifierList) → o.is_extern
        (t.more_specifiers (specifier_in specifier.now) rest) ≡ (result || o.is_extern rest) }
{
    match &specifier.kind {
        SpecifierKind::Word(SpecifierWord::Extern) => true,
        _ => false,
    }
}

/// Whether `extern` is one of the words (C11 6.7.1).
pub fn is_extern(specifiers: &[Specifier]) -> bool
    ensures { result ≡ o.is_extern (list_from specifiers.now) }
{
    for specifier in specifiers {
        if is_extern_word(specifier) {
            return true;
        }
    }
    false
}

fn typedef_name(specifier: &Specifier) -> Option<&[u8]>
    ensures { (rest : t.SpecifierList) → MatchOption result
        (o.typedef_in (t.more_specifiers (specifier_in specifier.now) rest) ≡ o.typedef_in rest)
        (λ x. x.now ≡ o.typedef_in (t.more_specifiers (specifier_in specifier.now) rest)) }
{
    match &specifier.kind {
        SpecifierKind::TypedefName(name) => Some(name),
        _ => None,
    }
}

/// The first typedef name; empty where there is none.
pub fn typedef_in(specifiers: &[Specifier]) -> &[u8]
    ensures { result.now ≡ o.typedef_in (list_from specifiers.now) }
{
    for specifier in specifiers {
        match typedef_name(specifier) {
            Some(name) => return name,
            None => {}
        }
    }
    &[]
}
