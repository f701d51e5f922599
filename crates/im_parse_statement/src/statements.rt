ghost use Rattle.std.specs.Prelude.{◌≡◌, ◌<◌, ◌^◌, IfOk, Some, length, map, drop};
ghost use Rattle.im_word.specs.Shown.{shown};
ghost use Rattle.im_word.specs.Words.{keyword};
ghost use Rattle.im_ctree.specs.Typedefs.{names_behind};
ghost use Rattle.im_ctree.specs.Units.{IsStatement};
ghost use Rattle.im_parse_core.specs.Places.{IsAt};
ghost use Rattle.im_parse_expression.specs.Parsing.{Parses, Anything};
ghost use Rattle.im_parse_statement.specs.Statements.{statement_tree, AfterStatement, RestOf};
ghost use Rattle.im_parse_statement.specs.Statements.{ExpressionLine, BlockLine, start_keyword};

use super::blocks::block;
use super::branches::{case_statement, default_statement, if_statement, switch_statement};
use super::closed::before_semicolon;
use super::loops::{do_statement, for_statement, while_statement};
use super::make;
use super::start::{StatementStart, start_at};
use im_ctree::{Statement, StatementKind};
use im_parse_core::{Stop, TypedefNames, after_mark};
use im_parse_expression::expect_mark;
use im_tok::Punctuator;
use im_word::Word;
use std::alloc::Global;

/// A statement (C11 6.8), and the place behind it.
#[cycle(statement)]
pub fn statement<'b>(
    alloc: Global,
    words: &[Word<'b>],
    names: &mut TypedefNames<'b>,
    at: u32,
) -> Result<(Statement, u32), Stop>
    requires { length words.now < 2 ^ 32 }
    ensures parses { Parses statement_tree (IsStatement names.old) AfterStatement
        (map shown words.now) at result }
    ensures behind { IfOk result
        (λ read. AfterStatement (statement_tree read.0) (drop read.1 (map shown words.now))) }
    ensures known { IfOk result
        (λ read. names.new ≡ names_behind names.old (statement_tree read.0)) }
{
    if let Some((start, behind)) = start_at(words, at) {
        return started(alloc, words, names, start, at, behind);
    }
    match after_mark(words, at, Punctuator::OpenBrace) {
        Some(_) => block_statement(alloc, words, names, at),
        None => expression_statement(alloc, words, names, at),
    }
}

/// The rest of a statement at place `at`, from the place behind its keyword on, and the place
/// behind it.
#[cycle(statement)]
fn started<'b>(
    alloc: Global,
    words: &[Word<'b>],
    names: &mut TypedefNames<'b>,
    start: StatementStart,
    at: u32,
    behind: u32,
) -> Result<(Statement, u32), Stop>
    requires { length words.now < 2 ^ 32 }
    ensures parses { Parses statement_tree (RestOf names.old at start) AfterStatement
        (map shown words.now) behind result }
    ensures behind { IfOk result
        (λ read. AfterStatement (statement_tree read.0) (drop read.1 (map shown words.now))) }
    ensures known { IfOk result
        (λ read. names.new ≡ names_behind names.old (statement_tree read.0)) }
{
    match start {
        StatementStart::If => if_statement(alloc, words, names, at, behind),
        StatementStart::While => while_statement(alloc, words, names, at, behind),
        StatementStart::Do => do_statement(alloc, words, names, at, behind),
        StatementStart::For => for_statement(alloc, words, names, at, behind),
        StatementStart::Switch => switch_statement(alloc, words, names, at, behind),
        StatementStart::Case => case_statement(alloc, words, names, at, behind),
        StatementStart::Default => default_statement(alloc, words, names, at, behind),
        StatementStart::Break => break_statement(words, names, at, behind),
        StatementStart::Continue => continue_statement(words, names, at, behind),
        StatementStart::Return => return_statement(alloc, words, names, at, behind),
    }
}

/// A block as a statement (C11 6.8.2), and the place behind it.
#[cycle(statement)]
#[inline(never)]
fn block_statement<'b>(
    alloc: Global,
    words: &[Word<'b>],
    names: &mut TypedefNames<'b>,
    at: u32,
) -> Result<(Statement, u32), Stop>
    requires { length words.now < 2 ^ 32 }
    ensures parses { Parses statement_tree (BlockLine names.old at) AfterStatement
        (map shown words.now) at result }
    ensures behind { IfOk result
        (λ read. AfterStatement (statement_tree read.0) (drop read.1 (map shown words.now))) }
    ensures known { IfOk result
        (λ read. names.new ≡ names_behind names.old (statement_tree read.0)) }
{
    let (body, end) = block(alloc, words, names, at)?;
    Ok((make::block_statement(at, body), end))
}

/// An expression statement (C11 6.8.3), and the place behind it.
#[inline(never)]
fn expression_statement<'b>(
    alloc: Global,
    words: &[Word<'b>],
    names: &mut TypedefNames<'b>,
    at: u32,
) -> Result<(Statement, u32), Stop>
    requires { length words.now < 2 ^ 32 }
    ensures parses { Parses statement_tree (ExpressionLine names.old at)
        AfterStatement (map shown words.now) at result }
    ensures behind { IfOk result
        (λ read. AfterStatement (statement_tree read.0) (drop read.1 (map shown words.now))) }
    ensures known { IfOk result
        (λ read. names.new ≡ names_behind names.old (statement_tree read.0)) }
{
    let (tree, end) = before_semicolon(alloc, words, names, at)?;
    let kind = StatementKind::Expression(tree);
    Ok((Statement { at, kind }, end))
}

/// The rest of a `break` statement at place `at` (C11 6.8.6.3), and the place behind it.
#[inline(never)]
fn break_statement<'b>(
    words: &[Word<'b>],
    names: &mut TypedefNames<'b>,
    at: u32,
    behind: u32,
) -> Result<(Statement, u32), Stop>
    requires { length words.now < 2 ^ 32 }
    ensures parses { Parses statement_tree (RestOf names.old at StatementStart.Break)
        AfterStatement (map shown words.now) behind result }
    ensures behind { IfOk result
        (λ read. AfterStatement (statement_tree read.0) (drop read.1 (map shown words.now))) }
    ensures known { IfOk result
        (λ read. names.new ≡ names_behind names.old (statement_tree read.0)) }
{
    let end = expect_mark(words, behind, Punctuator::Semicolon)?;
    let kind = StatementKind::Break;
    Ok((Statement { at, kind }, end))
}

/// The rest of a `continue` statement at place `at` (C11 6.8.6.2), and the place behind it.
#[inline(never)]
fn continue_statement<'b>(
    words: &[Word<'b>],
    names: &mut TypedefNames<'b>,
    at: u32,
    behind: u32,
) -> Result<(Statement, u32), Stop>
    requires { length words.now < 2 ^ 32 }
    ensures parses { Parses statement_tree (RestOf names.old at StatementStart.Continue)
        AfterStatement (map shown words.now) behind result }
    ensures behind { IfOk result
        (λ read. AfterStatement (statement_tree read.0) (drop read.1 (map shown words.now))) }
    ensures known { IfOk result
        (λ read. names.new ≡ names_behind names.old (statement_tree read.0)) }
{
    let end = expect_mark(words, behind, Punctuator::Semicolon)?;
    let kind = StatementKind::Continue;
    Ok((Statement { at, kind }, end))
}

/// The rest of a `return` statement at place `at` (C11 6.8.6.4), and the place behind it.
#[inline(never)]
fn return_statement<'b>(
    alloc: Global,
    words: &[Word<'b>],
    names: &mut TypedefNames<'b>,
    at: u32,
    behind: u32,
) -> Result<(Statement, u32), Stop>
    requires { length words.now < 2 ^ 32 }
    ensures parses { Parses statement_tree (RestOf names.old at StatementStart.Return)
        AfterStatement (map shown words.now) behind result }
    ensures behind { IfOk result
        (λ read. AfterStatement (statement_tree read.0) (drop read.1 (map shown words.now))) }
    ensures known { IfOk result
        (λ read. names.new ≡ names_behind names.old (statement_tree read.0)) }
{
    let (tree, end) = before_semicolon(alloc, words, names, behind)?;
    let kind = StatementKind::Return(tree);
    Ok((Statement { at, kind }, end))
}
