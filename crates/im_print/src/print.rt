ghost use Rattle.std.specs.Prelude.{◌≡◌, [], IfOk, OnOk};
ghost use Rattle.im_ctree.specs.Shape.{external_of, externals_of, tree_of};
ghost use Rattle.im_ctree.specs.Typedefs.{names_behind_external};
ghost use Rattle.im_ctree.specs.Units.{predeclared_names};
ghost use Rattle.im_print_relation.specs.Printed as printed;
ghost use Rattle.im_print_relation.specs.Printed.{words_of};
ghost use Rattle.im_print_relation.specs.Text.{text_of};
ghost use Rattle.im_print.specs.Again.{IsSpelled, IsReadBack};
ghost use Rattle.im_print_parts.specs.Output.{Writes, known};
ghost use Rattle.im_print_parts.specs.Parts.{signature_words};

use crate::declarations::put_declaration;
use crate::statements::put_block;
use im_ctree::{External, Function, Tree};
use im_num::NoMemory;
use im_print_parts::{has_type, put_behind_specifiers, put_specifiers};
use im_print_relation::printed_text_law;
use std::alloc::Global;

/// The typedef names that stand in for headers, the first one last.
fn predeclared(alloc: Global) -> Result<Vec<&'static [u8]>, NoMemory>
    ensures { IfOk result (λ names. known names.items ≡ predeclared_names) }
{
    let mut names: Vec<&'static [u8]> = Vec::new(alloc);
    names.push(b"size_t")?;
    names.push(b"uint32_t")?;
    names.push(b"int32_t")?;
    names.push(b"uint16_t")?;
    names.push(b"int16_t")?;
    names.push(b"uint8_t")?;
    names.push(b"int8_t")?;
    Ok(names)
}

/// Writes a function definition up to its body (C11 6.9.1).
fn put_signature(out: &mut Vec<u8>, names: &[&[u8]], function: &Function) -> Result<(), NoMemory>
    ensures { OnOk result (Writes out.old.items out.new.items
        (signature_words (known names.now) function.now)) }
{
    put_specifiers(out, names, &function.specifiers.items)?;
    let typed = has_type(&function.specifiers.items);
    put_behind_specifiers(out, names, typed, &function.declarator)?;
    Ok(())
}

fn put_function<'a>(
    out: &mut Vec<u8>,
    names: &mut Vec<&'a [u8]>,
    function: &'a Function,
) -> Result<(), NoMemory>
    ensures written { OnOk result (Writes out.old.items out.new.items (printed.external
        (known names.old.items) (external_of (External.Function function.now)))) }
    ensures known { OnOk result (known names.new.items ≡ names_behind_external
        (known names.old.items) (external_of (External.Function function.now))) }
{
    put_signature(out, names, function)?;
    put_block(out, names, &function.body.items)?;
    Ok(())
}

/// Writes an external declaration (C11 6.9).
fn put_external<'a>(
    out: &mut Vec<u8>,
    names: &mut Vec<&'a [u8]>,
    external: &'a External,
) -> Result<(), NoMemory>
    ensures written { OnOk result (Writes out.old.items out.new.items (printed.external
        (known names.old.items) (external_of external.now))) }
    ensures known { OnOk result (known names.new.items ≡ names_behind_external
        (known names.old.items) (external_of external.now)) }
{
    match external {
        External::Declaration(declaration) => put_declaration(out, names, declaration),
        External::Function(function) => put_function(out, names, function),
    }
}

/// The words of a tree, each with a blank behind it.
fn put_externals(alloc: Global, externals: &[External]) -> Result<Vec<u8>, NoMemory>
    ensures { IfOk result (λ out. Writes [] out.items
        (printed.externals predeclared_names (externals_of externals.now))) }
{
    let mut out = Vec::new(alloc);
    let mut names = predeclared(alloc)?;
    for external in externals {
        put_external(&mut out, &mut names, external)?;
    }
    Ok(out)
}

/// The text of a tree: a blank between two tokens, an LF at the end, and parentheses only where the
/// grammar needs them. Where the tokens of some text spell the tree, this text is read as the same
/// tree, but for the numbers of its tokens.
///
/// It goes down the tree by recursion, and through lists by loops: at most eight calls from a node
/// to one in it.
pub fn print_tree(alloc: Global, tree: &Tree) -> Result<Vec<u8>, NoMemory>
    ensures text { IfOk result (λ text. text.items ≡ text_of (words_of (tree_of tree.now))) }
    ensures read_back { IfOk result (λ text. IsSpelled (tree_of tree.now)
        → IsReadBack (tree_of tree.now) text.items) }
{
    printed_text_law();
    let mut out = put_externals(alloc, &tree.externals)?;
    let _blank = out.pop();
    out.push(b'\n')?;
    Ok(out)
}
