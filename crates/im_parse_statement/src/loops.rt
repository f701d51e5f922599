ghost use Rattle.std.specs.Prelude.{◌≡◌, ◌<◌, ◌^◌, Some, IfOk, MatchResult, length, map, drop};
ghost use Rattle.im_tok.specs.declared.keyword.Keyword.TheVariants.{While};
ghost use Rattle.im_word.specs.Words.{keyword};
ghost use Rattle.im_parse_core.specs.declared.stop.Stop.TheVariants.{Syntax};
ghost use Rattle.im_parse_core.specs.Reads.{head};
ghost use Rattle.im_parse_core.specs.Places.{IsAt};
ghost use Rattle.im_word.specs.Shown.{shown};
ghost use Rattle.im_ctree.specs.Shape.{for_init_of};
ghost use Rattle.im_ctree.specs.Units.{IsForInit};
ghost use Rattle.im_ctree.specs.Typedefs.{names_behind, names_behind_init};
ghost use Rattle.im_parse_expression.specs.Parsing.{Parses, Anything};
ghost use Rattle.im_parse_statement.specs.Statements.{statement_tree, AfterStatement, RestOf};

use super::closed::{before_paren, before_semicolon, condition};
use super::make;
use super::names::declared;
use super::start::StatementStart;
use super::statements::statement;
use im_ctree::{ForInit, Statement};
use im_parse_core::{Stop, TypedefNames, after_keyword};
use im_parse_expression::{begins_specifiers, expect_mark};
use im_tok::{Keyword, Punctuator};
use im_word::Word;
use std::alloc::Global;

/// The rest of a `while` statement at place `at` (C11 6.8.5.1), and the place behind it.
#[cycle(statement)]
pub fn while_statement<'b>(
    alloc: Global,
    words: &[Word<'b>],
    names: &mut TypedefNames<'b>,
    at: u32,
    behind: u32,
) -> Result<(Statement, u32), Stop>
    requires { length words.now < 2 ^ 32 }
    ensures parses { Parses statement_tree (RestOf names.old at StatementStart.While)
        AfterStatement (map shown words.now) behind result }
    ensures behind { IfOk result
        (λ read. AfterStatement (statement_tree read.0) (drop read.1 (map shown words.now))) }
    ensures known { IfOk result
        (λ read. names.new ≡ names_behind names.old (statement_tree read.0)) }
{
    let (value, next) = condition(alloc, words, names, behind)?;
    let (body, end) = statement(alloc, words, names, next)?;
    let tree = make::while_loop(alloc, at, value, body)?;
    Ok((tree, end))
}

/// The place behind `while`, which has to stand at this place.
fn expect_while(words: &[Word], at: u32) -> Result<u32, Stop>
    requires { length words.now < 2 ^ 32 }
    ensures { MatchResult result (λ next. IsAt (keyword While) (map shown words.now) at next) (λ
        stop. (stop ≡ Syntax at) ×
        (head (drop at (map shown words.now)) ≡ Some (keyword While) → ⊥)) }
{
    match after_keyword(words, at, Keyword::While) {
        Some(next) => Ok(next),
        None => Err(Stop::Syntax(at)),
    }
}

/// The rest of a `do` statement at place `at` (C11 6.8.5.2), and the place behind it.
#[cycle(statement)]
pub fn do_statement<'b>(
    alloc: Global,
    words: &[Word<'b>],
    names: &mut TypedefNames<'b>,
    at: u32,
    behind: u32,
) -> Result<(Statement, u32), Stop>
    requires { length words.now < 2 ^ 32 }
    ensures parses { Parses statement_tree (RestOf names.old at StatementStart.Do)
        AfterStatement (map shown words.now) behind result }
    ensures behind { IfOk result
        (λ read. AfterStatement (statement_tree read.0) (drop read.1 (map shown words.now))) }
    ensures known { IfOk result
        (λ read. names.new ≡ names_behind names.old (statement_tree read.0)) }
{
    let (body, next) = statement(alloc, words, names, behind)?;
    let last = expect_while(words, next)?;
    let (value, close) = condition(alloc, words, names, last)?;
    let end = expect_mark(words, close, Punctuator::Semicolon)?;
    let tree = make::do_loop(alloc, at, body, value)?;
    Ok((tree, end))
}

/// What a `for` begins with, and the semicolon behind it (C11 6.8.5.3); the place behind both.
fn for_init<'b>(
    alloc: Global,
    words: &[Word<'b>],
    names: &mut TypedefNames<'b>,
    at: u32,
) -> Result<(ForInit, u32), Stop>
    requires { length words.now < 2 ^ 32 }
    ensures parses { Parses for_init_of (IsForInit names.old) Anything
        (map shown words.now) at result }
    ensures known { IfOk result
        (λ read. names.new ≡ names_behind_init names.old (for_init_of read.0)) }
{
    if begins_specifiers(words, names, at) {
        let (tree, end) = declared(alloc, words, names, at)?;
        return Ok((ForInit::Declaration(tree), end));
    }
    let (tree, end) = before_semicolon(alloc, words, names, at)?;
    Ok((ForInit::Expression(tree), end))
}

/// The rest of a `for` statement at place `at` (C11 6.8.5.3), and the place behind it.
#[cycle(statement)]
pub fn for_statement<'b>(
    alloc: Global,
    words: &[Word<'b>],
    names: &mut TypedefNames<'b>,
    at: u32,
    behind: u32,
) -> Result<(Statement, u32), Stop>
    requires { length words.now < 2 ^ 32 }
    ensures parses { Parses statement_tree (RestOf names.old at StatementStart.For)
        AfterStatement (map shown words.now) behind result }
    ensures behind { IfOk result
        (λ read. AfterStatement (statement_tree read.0) (drop read.1 (map shown words.now))) }
    ensures known { IfOk result
        (λ read. names.new ≡ names_behind names.old (statement_tree read.0)) }
{
    let inside = expect_mark(words, behind, Punctuator::OpenParen)?;
    let (init, first) = for_init(alloc, words, names, inside)?;
    let (value, second) = before_semicolon(alloc, words, names, first)?;
    let (step, last) = before_paren(alloc, words, names, second)?;
    let (body, end) = statement(alloc, words, names, last)?;
    let tree = make::for_loop(alloc, at, init, value, step, body)?;
    Ok((tree, end))
}
