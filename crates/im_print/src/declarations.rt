ghost use Rattle.std.specs.Prelude.{◌≡◌, false, OnOk};
ghost use Rattle.im_ctree.specs.Shape.{declaration_of, init_declarators_of, initializer_of};
ghost use Rattle.im_ctree.specs.Shape.{maybe_initializer_of};
ghost use Rattle.im_ctree.specs.Tree as t;
ghost use Rattle.im_ctree.specs.Typedefs.{typedef_names};
ghost use Rattle.im_print_relation.specs.Printed as printed;
ghost use Rattle.im_print_parts.specs.Output.{Writes, each, known};
ghost use Rattle.im_print_parts.specs.Parts as parts;
ghost use Rattle.im_ctree_parts.specs.Lists.{initializers_from};

use im_ctree::{Declaration, InitDeclarator, Initializer};
use im_num::NoMemory;
use im_print_parts::{
    has_type, put_at, put_behind_specifiers, put_comma_if, put_declarator, put_mark,
    put_specifiers, remember,
};
use im_tok::Punctuator;

/// Writes an initialiser (C11 6.7.9).
#[cycle(initializing)]
fn put_initializer(
    out: &mut Vec<u8>,
    names: &[&[u8]],
    initializer: &Initializer,
) -> Result<(), NoMemory>
    ensures { OnOk result (Writes out.old.items out.new.items (printed.initializer
        (known names.now) (initializer_of initializer.now))) }
{
    match initializer {
        Initializer::Value(expression) => put_at(out, names, 1, expression),
        Initializer::List(_, items) => put_braced(out, names, items),
    }
}

/// Writes initialisers in braces.
#[cycle(initializing)]
fn put_braced(
    out: &mut Vec<u8>,
    names: &[&[u8]],
    initializers: &[Initializer],
) -> Result<(), NoMemory>
    ensures { OnOk result (Writes out.old.items out.new.items (printed.initializer
        (known names.now) (t.braced_initializer 0 (initializers_from initializers.now)))) }
{
    put_mark(out, Punctuator::OpenBrace)?;
    put_initializers(out, names, initializers)?;
    put_mark(out, Punctuator::CloseBrace)?;
    Ok(())
}

/// Writes initialisers with commas between them.
#[cycle(initializing)]
fn put_initializers(
    out: &mut Vec<u8>,
    names: &[&[u8]],
    initializers: &[Initializer],
) -> Result<(), NoMemory>
    ensures { OnOk result (Writes out.old.items out.new.items
        (parts.separated (parts.initializer_words (known names.now)) false initializers.now)) }
{
    let mut behind = false;
    for initializer in initializers {
        put_comma_if(out, behind)?;
        put_initializer(out, names, initializer)?;
        behind = true;
    }
    Ok(())
}

/// Writes `=` and an initialiser, where one is written.
fn put_maybe_initializer(
    out: &mut Vec<u8>,
    names: &[&[u8]],
    initializer: &Option<Initializer>,
) -> Result<(), NoMemory>
    ensures { OnOk result (Writes out.old.items out.new.items (printed.maybe_initializer
        (known names.now) (maybe_initializer_of initializer.now))) }
{
    match initializer {
        None => Ok(()),
        Some(one) => {
            put_mark(out, Punctuator::Assign)?;
            put_initializer(out, names, one)?;
            Ok(())
        }
    }
}

/// Writes declarators with a comma before each, and their initialisers.
fn put_next_declarators(
    out: &mut Vec<u8>,
    names: &[&[u8]],
    declarators: &[InitDeclarator],
) -> Result<(), NoMemory>
    ensures { OnOk result (Writes out.old.items out.new.items
        (each (parts.next_init_declarator (known names.now)) declarators.now)) }
{
    for one in declarators {
        put_mark(out, Punctuator::Comma)?;
        put_declarator(out, names, &one.declarator)?;
        put_maybe_initializer(out, names, &one.initializer)?;
    }
    Ok(())
}

/// Writes the declarators of a declaration, with commas between them, and their initialisers.
fn put_declarators(
    out: &mut Vec<u8>,
    names: &[&[u8]],
    typed: bool,
    declarators: &[InitDeclarator],
) -> Result<(), NoMemory>
    ensures { OnOk result (Writes out.old.items out.new.items (printed.init_declarators
        (known names.now) typed (init_declarators_of declarators.now))) }
{
    match declarators {
        [] => Ok(()),
        [first, rest @ ..] => {
            put_behind_specifiers(out, names, typed, &first.declarator)?;
            put_maybe_initializer(out, names, &first.initializer)?;
            put_next_declarators(out, names, rest)?;
            Ok(())
        }
    }
}

/// Writes a declaration and its semicolon (C11 6.7).
fn put_line(out: &mut Vec<u8>, names: &[&[u8]], declaration: &Declaration) -> Result<(), NoMemory>
    ensures { OnOk result (Writes out.old.items out.new.items (printed.declaration
        (known names.now) (declaration_of declaration.now))) }
{
    put_specifiers(out, names, &declaration.specifiers.items)?;
    let typed = has_type(&declaration.specifiers.items);
    put_declarators(out, names, typed, &declaration.declarators)?;
    put_mark(out, Punctuator::Semicolon)?;
    Ok(())
}

/// Writes a declaration (C11 6.7), whose typedef names are known from its semicolon on.
pub fn put_declaration<'a>(
    out: &mut Vec<u8>,
    names: &mut Vec<&'a [u8]>,
    declaration: &'a Declaration,
) -> Result<(), NoMemory>
    ensures written { OnOk result (Writes out.old.items out.new.items (printed.declaration
        (known names.old.items) (declaration_of declaration.now))) }
    ensures known { OnOk result (known names.new.items ≡ typedef_names (known names.old.items)
        (declaration_of declaration.now)) }
{
    put_line(out, names, declaration)?;
    remember(names, declaration)?;
    Ok(())
}
