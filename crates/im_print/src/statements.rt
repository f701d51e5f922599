ghost use Rattle.std.specs.Prelude.{◌≡◌, [], ◌∷◌, ◌++◌, OnOk};
ghost use Rattle.im_tok.specs.declared.keyword.Keyword.TheVariants as key;
ghost use Rattle.im_tok.specs.declared.punctuator.Punctuator.TheVariants as punctuator;
ghost use Rattle.im_word.specs.Words.{keyword, mark};
ghost use Rattle.im_ctree.specs.Tree as t;
ghost use Rattle.im_ctree.specs.Shape.{block_items_of, for_init_of, optional_expression_of};
ghost use Rattle.im_ctree.specs.Typedefs.{names_behind, names_behind_else, names_behind_init};
ghost use Rattle.im_ctree.specs.Typedefs.{names_behind_items};
ghost use Rattle.im_print_relation.specs.Printed as printed;
ghost use Rattle.im_print_parts.specs.Output.{Writes, known};
ghost use Rattle.im_print_parts.specs.Parts.{item_words, names_behind_item, other_from};
ghost use Rattle.im_ctree_parts.specs.Lists.{expression_in, statement_in};

use crate::declarations::put_declaration;
use im_ctree::{BlockItem, Expression, ForInit, Statement, StatementKind};
use im_num::NoMemory;
use im_print_parts::{put_at, put_expression, put_keyword, put_mark};
use im_tok::{Keyword, Punctuator};

/// Writes a statement (C11 6.8).
#[cycle(stating)]
fn put_statement<'a>(
    out: &mut Vec<u8>,
    names: &mut Vec<&'a [u8]>,
    statement: &'a Statement,
) -> Result<(), NoMemory>
    ensures written { OnOk result (Writes out.old.items out.new.items (printed.statement
        (known names.old.items) (statement_in statement.now))) }
    ensures known { OnOk result (known names.new.items ≡ names_behind (known names.old.items)
        (statement_in statement.now)) }
{
    match &statement.kind {
        StatementKind::Block(block) => put_block(out, names, &block.items),
        StatementKind::Expression(value) => put_line(out, names, value),
        StatementKind::If(test, body, other) => {
            put_head(out, names, Keyword::If, test)?;
            put_statement(out, names, body)?;
            put_else(out, names, other)?;
            Ok(())
        }
        StatementKind::While(test, body) => put_while(out, names, body, test),
        StatementKind::DoWhile(body, test) => put_do(out, names, body, test),
        StatementKind::For(init, test, step, body) => {
            put_for(out, names, body, init, test, step)
        }
        StatementKind::Switch(value, block) => put_switch(out, names, &block.items, value),
        StatementKind::Case(value, body) => put_case(out, names, body, value),
        StatementKind::Default(body) => put_default(out, names, body),
        StatementKind::Break => put_jump(out, Keyword::Break),
        StatementKind::Continue => put_jump(out, Keyword::Continue),
        StatementKind::Return(value) => put_return(out, names, value),
    }
}

/// Writes an expression, where one is written.
fn put_maybe(out: &mut Vec<u8>, names: &[&[u8]], value: &Option<Expression>) -> Result<(), NoMemory>
    ensures { OnOk result (Writes out.old.items out.new.items (printed.maybe_expression
        (known names.now) (optional_expression_of value.now))) }
{
    match value {
        None => Ok(()),
        Some(expression) => put_expression(out, names, expression),
    }
}

/// Writes an expression, where one is written, and a semicolon (C11 6.8.3).
fn put_line(out: &mut Vec<u8>, names: &[&[u8]], value: &Option<Expression>) -> Result<(), NoMemory>
    ensures { OnOk result (Writes out.old.items out.new.items (printed.maybe_expression
        (known names.now) (optional_expression_of value.now) ++ (mark punctuator.Semicolon ∷ []))) }
{
    put_maybe(out, names, value)?;
    put_mark(out, Punctuator::Semicolon)?;
    Ok(())
}

/// Writes `return`, a value where one is written, and a semicolon (C11 6.8.6.4).
fn put_return(
    out: &mut Vec<u8>,
    names: &[&[u8]],
    value: &Option<Expression>,
) -> Result<(), NoMemory>
    ensures { OnOk result (Writes out.old.items out.new.items (keyword key.Return
        ∷ (printed.maybe_expression (known names.now) (optional_expression_of value.now)
        ++ (mark punctuator.Semicolon ∷ [])))) }
{
    put_keyword(out, Keyword::Return)?;
    put_line(out, names, value)?;
    Ok(())
}

/// Writes `break` or `continue` and a semicolon (C11 6.8.6).
fn put_jump(out: &mut Vec<u8>, word: Keyword) -> Result<(), NoMemory>
    ensures { OnOk result (Writes out.old.items out.new.items
        (keyword word ∷ mark punctuator.Semicolon ∷ [])) }
{
    put_keyword(out, word)?;
    put_mark(out, Punctuator::Semicolon)?;
    Ok(())
}

/// Writes a keyword and an expression in parentheses behind it.
fn put_head(
    out: &mut Vec<u8>,
    names: &[&[u8]],
    word: Keyword,
    value: &Expression,
) -> Result<(), NoMemory>
    ensures { OnOk result (Writes out.old.items out.new.items (keyword word
        ∷ mark punctuator.OpenParen ∷ (printed.expression (known names.now)
        (expression_in value.now) ++ (mark punctuator.CloseParen ∷ [])))) }
{
    put_keyword(out, word)?;
    put_mark(out, Punctuator::OpenParen)?;
    put_expression(out, names, value)?;
    put_mark(out, Punctuator::CloseParen)?;
    Ok(())
}

/// Writes `else` and a statement, where one is written.
#[cycle(stating)]
fn put_else<'a>(
    out: &mut Vec<u8>,
    names: &mut Vec<&'a [u8]>,
    other: &'a Option<Box<Statement>>,
) -> Result<(), NoMemory>
    ensures written { OnOk result (Writes out.old.items out.new.items (printed.else_part
        (known names.old.items) (other_from other.now))) }
    ensures known { OnOk result (known names.new.items ≡ names_behind_else
        (known names.old.items) (other_from other.now)) }
{
    match other {
        None => Ok(()),
        Some(statement) => {
            put_keyword(out, Keyword::Else)?;
            put_statement(out, names, statement)?;
            Ok(())
        }
    }
}

/// Writes a `while` statement (C11 6.8.5.1).
#[cycle(stating)]
fn put_while<'a>(
    out: &mut Vec<u8>,
    names: &mut Vec<&'a [u8]>,
    body: &'a Statement,
    test: &'a Expression,
) -> Result<(), NoMemory>
    ensures written { OnOk result (Writes out.old.items out.new.items (printed.statement
        (known names.old.items)
        (t.while_statement 0 (expression_in test.now) (statement_in body.now)))) }
    ensures known { OnOk result (known names.new.items ≡ names_behind (known names.old.items)
        (statement_in body.now)) }
{
    put_head(out, names, Keyword::While, test)?;
    put_statement(out, names, body)?;
    Ok(())
}

/// Writes a `do` statement (C11 6.8.5.2).
#[cycle(stating)]
fn put_do<'a>(
    out: &mut Vec<u8>,
    names: &mut Vec<&'a [u8]>,
    body: &'a Statement,
    test: &'a Expression,
) -> Result<(), NoMemory>
    ensures written { OnOk result (Writes out.old.items out.new.items (printed.statement
        (known names.old.items)
        (t.do_statement 0 (statement_in body.now) (expression_in test.now)))) }
    ensures known { OnOk result (known names.new.items ≡ names_behind (known names.old.items)
        (statement_in body.now)) }
{
    put_keyword(out, Keyword::Do)?;
    put_statement(out, names, body)?;
    put_head(out, names, Keyword::While, test)?;
    put_mark(out, Punctuator::Semicolon)?;
    Ok(())
}

/// Writes what a `for` begins with, and its semicolon (C11 6.8.5.3).
fn put_init<'a>(
    out: &mut Vec<u8>,
    names: &mut Vec<&'a [u8]>,
    init: &'a ForInit,
) -> Result<(), NoMemory>
    ensures written { OnOk result (Writes out.old.items out.new.items (printed.for_init
        (known names.old.items) (for_init_of init.now))) }
    ensures known { OnOk result (known names.new.items ≡ names_behind_init
        (known names.old.items) (for_init_of init.now)) }
{
    match init {
        ForInit::Declaration(declaration) => put_declaration(out, names, declaration),
        ForInit::Expression(value) => put_line(out, names, value),
    }
}

/// Writes a `for` statement (C11 6.8.5.3).
#[cycle(stating)]
fn put_for<'a>(
    out: &mut Vec<u8>,
    names: &mut Vec<&'a [u8]>,
    body: &'a Statement,
    init: &'a ForInit,
    test: &'a Option<Expression>,
    step: &'a Option<Expression>,
) -> Result<(), NoMemory>
    ensures written { OnOk result (Writes out.old.items out.new.items (printed.statement
        (known names.old.items) (t.for_statement 0 (for_init_of init.now)
        (optional_expression_of test.now) (optional_expression_of step.now)
        (statement_in body.now)))) }
    ensures known { OnOk result (known names.new.items ≡ names_behind
        (names_behind_init (known names.old.items) (for_init_of init.now))
        (statement_in body.now)) }
{
    put_keyword(out, Keyword::For)?;
    put_mark(out, Punctuator::OpenParen)?;
    put_init(out, names, init)?;
    put_line(out, names, test)?;
    put_maybe(out, names, step)?;
    put_mark(out, Punctuator::CloseParen)?;
    put_statement(out, names, body)?;
    Ok(())
}

/// Writes a `switch` statement (C11 6.8.4.2).
#[cycle(stating)]
fn put_switch<'a>(
    out: &mut Vec<u8>,
    names: &mut Vec<&'a [u8]>,
    items: &'a [BlockItem],
    value: &'a Expression,
) -> Result<(), NoMemory>
    ensures written { OnOk result (Writes out.old.items out.new.items (printed.statement
        (known names.old.items) (t.switch_statement 0 (expression_in value.now)
        (t.block 0 (block_items_of items.now))))) }
    ensures known { OnOk result (known names.new.items ≡ names_behind_items
        (known names.old.items) (block_items_of items.now)) }
{
    put_head(out, names, Keyword::Switch, value)?;
    put_block(out, names, items)?;
    Ok(())
}

/// Writes a statement that `case` labels (C11 6.8.1).
#[cycle(stating)]
fn put_case<'a>(
    out: &mut Vec<u8>,
    names: &mut Vec<&'a [u8]>,
    body: &'a Statement,
    value: &'a Expression,
) -> Result<(), NoMemory>
    ensures written { OnOk result (Writes out.old.items out.new.items (printed.statement
        (known names.old.items)
        (t.case_statement 0 (expression_in value.now) (statement_in body.now)))) }
    ensures known { OnOk result (known names.new.items ≡ names_behind (known names.old.items)
        (statement_in body.now)) }
{
    put_keyword(out, Keyword::Case)?;
    put_at(out, names, 2, value)?;
    put_mark(out, Punctuator::Colon)?;
    put_statement(out, names, body)?;
    Ok(())
}

/// Writes a statement that `default` labels (C11 6.8.1).
#[cycle(stating)]
fn put_default<'a>(
    out: &mut Vec<u8>,
    names: &mut Vec<&'a [u8]>,
    body: &'a Statement,
) -> Result<(), NoMemory>
    ensures written { OnOk result (Writes out.old.items out.new.items (printed.statement
        (known names.old.items) (t.default_statement 0 (statement_in body.now)))) }
    ensures known { OnOk result (known names.new.items ≡ names_behind (known names.old.items)
        (statement_in body.now)) }
{
    put_keyword(out, Keyword::Default)?;
    put_mark(out, Punctuator::Colon)?;
    put_statement(out, names, body)?;
    Ok(())
}

/// Writes the items of a block in braces (C11 6.8.2).
#[cycle(stating)]
pub fn put_block<'a>(
    out: &mut Vec<u8>,
    names: &mut Vec<&'a [u8]>,
    items: &'a [BlockItem],
) -> Result<(), NoMemory>
    ensures written { OnOk result (Writes out.old.items out.new.items (printed.block
        (known names.old.items) (t.block 0 (block_items_of items.now)))) }
    ensures known { OnOk result (known names.new.items ≡ names_behind_items
        (known names.old.items) (block_items_of items.now)) }
{
    put_mark(out, Punctuator::OpenBrace)?;
    put_items(out, names, items)?;
    put_mark(out, Punctuator::CloseBrace)?;
    Ok(())
}

/// Writes what stands in a block.
#[cycle(stating)]
fn put_items<'a>(
    out: &mut Vec<u8>,
    names: &mut Vec<&'a [u8]>,
    items: &'a [BlockItem],
) -> Result<(), NoMemory>
    ensures written { OnOk result (Writes out.old.items out.new.items (printed.items
        (known names.old.items) (block_items_of items.now))) }
    ensures known { OnOk result (known names.new.items ≡ names_behind_items
        (known names.old.items) (block_items_of items.now)) }
{
    for item in items {
        put_item(out, names, item)?;
    }
    Ok(())
}

#[cycle(stating)]
fn put_item<'a>(
    out: &mut Vec<u8>,
    names: &mut Vec<&'a [u8]>,
    item: &'a BlockItem,
) -> Result<(), NoMemory>
    ensures written { OnOk result (Writes out.old.items out.new.items
        (item_words (known names.old.items) item.now)) }
    ensures known { OnOk result (known names.new.items ≡ names_behind_item
        (known names.old.items) item.now) }
{
    match item {
        BlockItem::Declaration(declaration) => put_declaration(out, names, declaration),
        BlockItem::Statement(statement) => put_statement(out, names, statement),
    }
}
