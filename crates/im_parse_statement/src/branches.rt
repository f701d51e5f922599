ghost use Rattle.std.specs.Prelude.{◌≡◌, ◌<◌, ◌^◌, IfOk, length, map, drop};
ghost use Rattle.im_word.specs.Shown.{shown};
ghost use Rattle.im_ctree.specs.Typedefs.{names_behind};
ghost use Rattle.im_parse_expression.specs.Parsing.{Parses};
ghost use Rattle.im_parse_statement.specs.Statements.{statement_tree, AfterStatement, RestOf};

use super::blocks::block;
use super::closed::condition;
use super::make;
use super::start::StatementStart;
use super::statements::statement;
use im_ctree::Statement;
use im_parse_core::{Stop, TypedefNames, after_keyword};
use im_parse_expression::{conditional, expect_mark};
use im_tok::{Keyword, Punctuator};
use im_word::Word;
use std::alloc::Global;

/// The rest of an `if` statement at place `at` (C11 6.8.4.1), and the place behind it.
#[cycle(statement)]
pub fn if_statement<'b>(
    alloc: Global,
    words: &[Word<'b>],
    names: &mut TypedefNames<'b>,
    at: u32,
    behind: u32,
) -> Result<(Statement, u32), Stop>
    requires { length words.now < 2 ^ 32 }
    ensures parses { Parses statement_tree (RestOf names.old at StatementStart.If)
        AfterStatement (map shown words.now) behind result }
    ensures behind { IfOk result
        (λ read. AfterStatement (statement_tree read.0) (drop read.1 (map shown words.now))) }
    ensures known { IfOk result
        (λ read. names.new ≡ names_behind names.old (statement_tree read.0)) }
{
    let (value, next) = condition(alloc, words, names, behind)?;
    let (body, end) = statement(alloc, words, names, next)?;
    match after_keyword(words, end, Keyword::Else) {
        None => {
            let tree = make::if_alone(alloc, at, value, body)?;
            Ok((tree, end))
        }
        Some(last) => {
            let (other, end) = statement(alloc, words, names, last)?;
            let tree = make::if_else(alloc, at, value, body, other)?;
            Ok((tree, end))
        }
    }
}

/// The rest of a `switch` statement at place `at` (C11 6.8.4.2), and the place behind it.
#[cycle(statement)]
pub fn switch_statement<'b>(
    alloc: Global,
    words: &[Word<'b>],
    names: &mut TypedefNames<'b>,
    at: u32,
    behind: u32,
) -> Result<(Statement, u32), Stop>
    requires { length words.now < 2 ^ 32 }
    ensures parses { Parses statement_tree (RestOf names.old at StatementStart.Switch)
        AfterStatement (map shown words.now) behind result }
    ensures behind { IfOk result
        (λ read. AfterStatement (statement_tree read.0) (drop read.1 (map shown words.now))) }
    ensures known { IfOk result
        (λ read. names.new ≡ names_behind names.old (statement_tree read.0)) }
{
    let (value, next) = condition(alloc, words, names, behind)?;
    let (body, end) = block(alloc, words, names, next)?;
    Ok((make::switch(at, value, body), end))
}

/// The rest of a statement at place `at` that `case` labels (C11 6.8.1), and the place behind it.
#[cycle(statement)]
pub fn case_statement<'b>(
    alloc: Global,
    words: &[Word<'b>],
    names: &mut TypedefNames<'b>,
    at: u32,
    behind: u32,
) -> Result<(Statement, u32), Stop>
    requires { length words.now < 2 ^ 32 }
    ensures parses { Parses statement_tree (RestOf names.old at StatementStart.Case)
        AfterStatement (map shown words.now) behind result }
    ensures behind { IfOk result
        (λ read. AfterStatement (statement_tree read.0) (drop read.1 (map shown words.now))) }
    ensures known { IfOk result
        (λ read. names.new ≡ names_behind names.old (statement_tree read.0)) }
{
    let (value, next) = conditional(alloc, words, names, behind)?;
    let last = expect_mark(words, next, Punctuator::Colon)?;
    let (body, end) = statement(alloc, words, names, last)?;
    let tree = make::case(alloc, at, value, body)?;
    Ok((tree, end))
}

/// The rest of a statement at place `at` that `default` labels (C11 6.8.1), and the place behind
/// it.
#[cycle(statement)]
pub fn default_statement<'b>(
    alloc: Global,
    words: &[Word<'b>],
    names: &mut TypedefNames<'b>,
    at: u32,
    behind: u32,
) -> Result<(Statement, u32), Stop>
    requires { length words.now < 2 ^ 32 }
    ensures parses { Parses statement_tree (RestOf names.old at StatementStart.Default)
        AfterStatement (map shown words.now) behind result }
    ensures behind { IfOk result
        (λ read. AfterStatement (statement_tree read.0) (drop read.1 (map shown words.now))) }
    ensures known { IfOk result
        (λ read. names.new ≡ names_behind names.old (statement_tree read.0)) }
{
    let last = expect_mark(words, behind, Punctuator::Colon)?;
    let (body, end) = statement(alloc, words, names, last)?;
    let tree = make::default(alloc, at, body)?;
    Ok((tree, end))
}
