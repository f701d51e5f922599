ghost use Rattle.std.specs.Prelude.{◌≡◌, ◌<◌, ◌^◌, ◌++◌, MatchResult, IfOk, IfSome, length, map};
ghost use Rattle.im_word.specs.Shown.{shown};
ghost use Rattle.im_ctree.specs.Shape.{declaration_of, declarator_of, init_declarators_of};
ghost use Rattle.im_ctree.specs.Typedefs as typedefs;
ghost use Rattle.im_ctree.specs.Units.{IsDeclaration};
ghost use Rattle.im_parse_core.specs.declared.stop.Stop.TheVariants.{Memory};
ghost use Rattle.im_parse_expression.specs.Parsing.{Parses, Anything};

use im_ctree::{Declaration, Declarator, InitDeclarator};
use im_ctree_parts::{declared_name, has_typedef};
use im_num::beyond_memory;
use im_parse_core::{Stop, TypedefNames};
use im_parse_expression::declaration;
use im_word::Word;
use std::alloc::Global;

/// The first name at this place or behind it that is spelled so.
fn find_name<'b>(words: &[Word<'b>], at: u32, name: &[u8]) -> Option<&'b [u8]>
    ensures { IfSome result (λ found. found.now ≡ name.now) }
{
    let rest = words.get(at as usize..)?;
    for word in rest {
        if let Word::Name(bytes) = word {
            if *bytes == name {
                return Some(*bytes);
            }
        }
    }
    None
}

/// Puts the name that a declarator declares before those that are known. Its bytes are those of the
/// first such word from the declarator's first word on.
fn push_name<'b>(
    words: &[Word<'b>],
    names: &mut TypedefNames<'b>,
    declarator: &Declarator,
) -> Result<(), Stop>
    ensures { MatchResult result (λ done. names.new ≡ typedefs.declared_name
        (declarator_of declarator.now) ++ names.old) (λ stop. stop ≡ Memory) }
{
    match declared_name(declarator) {
        None => Ok(()),
        Some(name) => match find_name(words, declarator.at, name) {
            None => Err(Stop::from(beyond_memory())),
            Some(bytes) => names.push(bytes),
        },
    }
}

/// Puts the names that these declarators declare before those that are known.
fn push_names<'b>(
    words: &[Word<'b>],
    names: &mut TypedefNames<'b>,
    declarators: &[InitDeclarator],
) -> Result<(), Stop>
    ensures { MatchResult result (λ done. names.new ≡ typedefs.declared_names
        (init_declarators_of declarators.now) ++ names.old) (λ stop. stop ≡ Memory) }
{
    let mut left = declarators.len();
    while left > 0 {
        left -= 1;
        push_name(words, names, &declarators[left].declarator)?;
    }
    Ok(())
}

/// Puts the names that a declaration makes typedef names before those that are known (C11 6.7.8).
pub fn remember<'b>(
    words: &[Word<'b>],
    names: &mut TypedefNames<'b>,
    tree: &Declaration,
) -> Result<(), Stop>
    ensures { MatchResult result (λ done. names.new ≡ typedefs.typedef_names
        names.old (declaration_of tree.now)) (λ stop. stop ≡ Memory) }
{
    if !has_typedef(&tree.specifiers.items) {
        return Ok(());
    }
    push_names(words, names, &tree.declarators)?;
    Ok(())
}

/// A declaration (C11 6.7), whose typedef names are known from its semicolon on, and the place
/// behind it.
pub fn declared<'b>(
    alloc: Global,
    words: &[Word<'b>],
    names: &mut TypedefNames<'b>,
    at: u32,
) -> Result<(Declaration, u32), Stop>
    requires { length words.now < 2 ^ 32 }
    ensures parses { Parses declaration_of (IsDeclaration names.old) Anything
        (map shown words.now) at result }
    ensures known { IfOk result
        (λ read. names.new ≡ typedefs.typedef_names names.old (declaration_of read.0)) }
{
    let (tree, end) = declaration(alloc, words, names, at)?;
    remember(words, names, &tree)?;
    Ok((tree, end))
}
