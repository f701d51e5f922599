ghost use Rattle.std.specs.Prelude.{◌≡◌, ◌||◌, Bool, false, ◌++◌, OnOk};
ghost use Rattle.im_ctree.specs.Shape.{declaration_of, declarator_of, init_declarators_of};
ghost use Rattle.im_ctree.specs.Typedefs as typedefs;
ghost use Rattle.im_print_relation.specs.Printed as printed;
ghost use Rattle.im_print_parts.specs.Output.{known};
ghost use Rattle.im_ctree_parts.specs.Lists.{list_from, specifier_in};

use im_ctree::{
    Core, Declaration, Declarator, InitDeclarator, Specifier, SpecifierKind, SpecifierWord,
};
use im_ctree_parts::{declared_name, has_typedef};
use im_num::NoMemory;

fn is_type_word(word: SpecifierWord) -> bool
    ensures { result ≡ typedefs.is_type_word word }
{
    match word {
        SpecifierWord::Typedef
        | SpecifierWord::Extern
        | SpecifierWord::Static
        | SpecifierWord::Const => false,
        SpecifierWord::Void
        | SpecifierWord::Char
        | SpecifierWord::Short
        | SpecifierWord::Int
        | SpecifierWord::Long
        | SpecifierWord::Signed
        | SpecifierWord::Unsigned => true,
    }
}

fn is_type(specifier: &Specifier) -> bool
    ensures { (before : Bool) → typedefs.adds_type before (specifier_in specifier.now)
        ≡ (before || result) }
{
    match &specifier.kind {
        SpecifierKind::Word(word) => is_type_word(*word),
        _ => true,
    }
}

/// Whether a type stands in specifiers (C11 6.7.2).
pub fn has_type(specifiers: &[Specifier]) -> bool
    ensures { result ≡ typedefs.has_type_from false (list_from specifiers.now) }
{
    for specifier in specifiers {
        if is_type(specifier) {
            return true;
        }
    }
    false
}

/// Puts the name that a declarator declares before those that are known.
fn push_name<'a>(names: &mut Vec<&'a [u8]>, declarator: &'a Declarator) -> Result<(), NoMemory>
    ensures { OnOk result (known names.new.items
        ≡ typedefs.declared_name (declarator_of declarator.now) ++ known names.old.items) }
{
    match declared_name(declarator) {
        None => Ok(()),
        Some(name) => {
            names.push(name)?;
            Ok(())
        }
    }
}

/// Puts the names that declarators declare before those that are known.
fn push_names<'a>(
    names: &mut Vec<&'a [u8]>,
    declarators: &'a [InitDeclarator],
) -> Result<(), NoMemory>
    ensures { OnOk result (known names.new.items
        ≡ typedefs.declared_names (init_declarators_of declarators.now)
        ++ known names.old.items) }
{
    let mut left = declarators.len();
    while left > 0 {
        left -= 1;
        push_name(names, &declarators[left].declarator)?;
    }
    Ok(())
}

/// Puts the names that a declaration makes typedef names before those that are known (C11 6.7.8).
pub fn remember<'a>(names: &mut Vec<&'a [u8]>, declaration: &'a Declaration) -> Result<(), NoMemory>
    ensures { OnOk result (known names.new.items ≡ typedefs.typedef_names
        (known names.old.items) (declaration_of declaration.now)) }
{
    if !has_typedef(&declaration.specifiers.items) {
        return Ok(());
    }
    push_names(names, &declaration.declarators)?;
    Ok(())
}

fn is_among(names: &[&[u8]], name: &[u8]) -> bool
    ensures { result ≡ printed.is_among (known names.now) name.now }
{
    for one in names {
        if *one == name {
            return true;
        }
    }
    false
}

/// Whether a declarator begins with a typedef name.
pub fn begins_with_typedef(names: &[&[u8]], declarator: &Declarator) -> bool
    ensures { result ≡ printed.begins_with_typedef (known names.now)
        (declarator_of declarator.now) }
{
    if declarator.stars.len() > 0 {
        return false;
    }
    match &declarator.core {
        Core::Name(name) => is_among(names, name),
        Core::Absent | Core::Inner(_) => false,
    }
}
