ghost use Rattle.std.specs.Prelude.{◌≡◌, ◌<◌, ◌^◌, IfOk, length, map};
ghost use Rattle.im_tok.specs.declared.punctuator.Punctuator.TheVariants.{CloseBrace};
ghost use Rattle.im_word.specs.Shown.{shown};
ghost use Rattle.im_ctree.specs.Typedefs.{names_behind_block, names_behind_items};
ghost use Rattle.im_ctree.specs.Units.{IsBlock, IsBlockItems};
ghost use Rattle.im_parse_expression.specs.Parsing.{Parses, Anything, Closed};
ghost use Rattle.im_parse_statement.specs.Statements.{AfterItem, IsItem, block_tree, item_tree};
ghost use Rattle.im_parse_statement.specs.Statements.{items_tree, names_behind_item};

use super::names::declared;
use super::statements::statement;
use im_ctree::{Block, BlockItem};
use im_parse_core::{Stop, TypedefNames, after_mark};
use im_parse_expression::{begins_specifiers, expect_mark};
use im_tok::Punctuator;
use im_word::Word;
use std::alloc::Global;

/// A block (C11 6.8.2), and the place behind it.
#[cycle(statement)]
pub fn block<'b>(
    alloc: Global,
    words: &[Word<'b>],
    names: &mut TypedefNames<'b>,
    at: u32,
) -> Result<(Block, u32), Stop>
    requires { length words.now < 2 ^ 32 }
    ensures parses { Parses block_tree (IsBlock names.old) Anything
        (map shown words.now) at result }
    ensures known { IfOk result
        (λ read. names.new ≡ names_behind_block names.old (block_tree read.0)) }
{
    let inside = expect_mark(words, at, Punctuator::OpenBrace)?;
    let (mut items, end) = closed_items(alloc, words, names, inside)?;
    items.shrink_to_fit();
    Ok((Block { at, items }, end))
}

/// What stands in a block and the brace that closes it (C11 6.8.2), and the place behind all.
#[cycle(statement)]
fn closed_items<'b>(
    alloc: Global,
    words: &[Word<'b>],
    names: &mut TypedefNames<'b>,
    at: u32,
) -> Result<(Vec<BlockItem>, u32), Stop>
    requires { length words.now < 2 ^ 32 }
    ensures parses { Parses items_tree (Closed CloseBrace (IsBlockItems names.old))
        Anything (map shown words.now) at result }
    ensures known { IfOk result
        (λ read. names.new ≡ names_behind_items names.old (items_tree read.0)) }
{
    let mut items = Vec::new(alloc);
    let mut next = at;
    loop {
        if let Some(end) = after_mark(words, next, Punctuator::CloseBrace) {
            return Ok((items, end));
        }
        let (item, end) = block_item(alloc, words, names, next)?;
        items.push(item)?;
        next = end;
    }
}

/// A declaration or a statement in a block (C11 6.8.2), and the place behind it.
#[cycle(statement)]
fn block_item<'b>(
    alloc: Global,
    words: &[Word<'b>],
    names: &mut TypedefNames<'b>,
    at: u32,
) -> Result<(BlockItem, u32), Stop>
    requires { length words.now < 2 ^ 32 }
    ensures parses { Parses item_tree (IsItem names.old) AfterItem (map shown words.now) at result }
    ensures known { IfOk result
        (λ read. names.new ≡ names_behind_item names.old (item_tree read.0)) }
{
    if begins_specifiers(words, names, at) {
        let (tree, end) = declared(alloc, words, names, at)?;
        return Ok((BlockItem::Declaration(tree), end));
    }
    let (tree, end) = statement(alloc, words, names, at)?;
    Ok((BlockItem::Statement(tree), end))
}
