ghost use Rattle.std.specs.Prelude.{◌≡◌, ◌<◌, ◌^◌, IfOk, length, map};
ghost use Rattle.im_word.specs.Shown.{shown};
ghost use Rattle.im_ctree.specs.Shape.{external_of};
ghost use Rattle.im_ctree.specs.Typedefs.{names_behind_external};
ghost use Rattle.im_ctree.specs.Units.{IsExternal};
ghost use Rattle.im_parse_expression.specs.Parsing.{Parses, Anything};

use im_ctree::{Declaration, External, Function};
use im_parse_core::{Stop, TypedefNames, after_mark};
use im_parse_expression::{Form, closed_inits_behind, declarator, specifiers};
use im_parse_statement::{block, remember};
use im_tok::Punctuator;
use im_word::Word;
use std::alloc::Global;

/// An external declaration (C11 6.9), and the place behind it.
pub fn external<'b>(
    alloc: Global,
    words: &[Word<'b>],
    names: &mut TypedefNames<'b>,
    at: u32,
) -> Result<(External, u32), Stop>
    requires { length words.now < 2 ^ 32 }
    ensures parses { Parses external_of (IsExternal names.old) Anything
        (map shown words.now) at result }
    ensures known { IfOk result
        (λ read. names.new ≡ names_behind_external names.old (external_of read.0)) }
{
    let (specifiers, next) = specifiers(alloc, words, names, at)?;
    if let Some(end) = after_mark(words, next, Punctuator::Semicolon) {
        let declarators = Vec::new(alloc);
        let tree = Declaration {
            specifiers,
            declarators,
        };
        return Ok((External::Declaration(tree), end));
    }
    let (declarator, behind) = declarator(alloc, words, names, Form::Declared, next)?;
    if let Some(_) = after_mark(words, behind, Punctuator::OpenBrace) {
        let (body, end) = block(alloc, words, names, behind)?;
        let function = Function {
            specifiers,
            declarator,
            body,
        };
        return Ok((External::Function(function), end));
    }
    let (declarators, end) = closed_inits_behind(alloc, words, names, declarator, behind)?;
    let tree = Declaration {
        specifiers,
        declarators,
    };
    remember(words, names, &tree)?;
    Ok((External::Declaration(tree), end))
}
