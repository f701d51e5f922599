//! Statements and blocks (C11 6.8).
ghost use Rattle.std.specs.Prelude.{◌≡◌, [], None, length, MatchResult};
ghost use Rattle.im_ctree.specs.Shape.{block_items_of};
ghost use Rattle.im_ctree_parts.specs.Lists.{statement_in};
ghost use Rattle.im_rules.specs.BodyBreaks as b;
ghost use Rattle.im_check_stop.specs.Answers.{IsNoRule};
ghost use Rattle.im_check_sites.specs.Sites.{IsBodyFault};
ghost use Rattle.im_check_statement_forms.specs.Done.{IsLeaf};
ghost use Rattle.im_check_statement_forms.specs.Labelling.{no_labels as none, Tells};
ghost use Rattle.im_check_statements.specs.Checked.{looped_in, switched_in, ItemsDone, ItemDone};
ghost use Rattle.im_check_statements.specs.Checked.{IsItemFault, CasesDone, CaseItemDone};
ghost use Rattle.im_check_statements.specs.Checked.{IsCaseItemFault, LabelledDone, IsLabelledFault};
ghost use Rattle.im_check_statements.specs.Forms.{IsBlock, IsIf, IsWhile, IsDoWhile, IsFor};
ghost use Rattle.im_check_statements.specs.Forms.{IsSwitch};

use im_check_sites::{Body, Position};
use im_check_statement_forms::{
    Labels, block_made, break_statement, case_label, closed, continue_statement, declaration,
    default_label, do_made, expression_statement, for_made, head, if_made, no_labels, opened,
    return_statement, selected_by, stray_label, switch_made, tested, while_made,
};
use im_check_stop::Stop;
use im_ctree::{BlockItem, Statement, StatementKind};
use im_ctype::Integer;
use im_num::beyond_memory;
use im_typed::Stmt;
use std::alloc::Global;

fn looped(position: Position) -> Position
    ensures { result ≡ looped_in position }
{
    Position {
        in_loop: true,
        in_switch: position.in_switch,
    }
}

fn switched(position: Position) -> Position
    ensures { result ≡ switched_in position }
{
    Position {
        in_loop: position.in_loop,
        in_switch: true,
    }
}

/// What a statement is typed to. It recurs as deep as the tree is.
#[cycle(statements)]
fn statement(
    alloc: Global,
    s: &Statement,
    position: Position,
    body: &mut Body,
) -> Result<Stmt, Stop>
    ensures { IsLeaf position body.old (statement_in s.now) body.new result }
{
    match &s.kind {
        StatementKind::Block(_) => block_statement(alloc, s, position, body),
        StatementKind::If(_, _, _) => if_statement(alloc, s, position, body),
        StatementKind::While(_, _) => while_statement(alloc, s, position, body),
        StatementKind::DoWhile(_, _) => do_statement(alloc, s, position, body),
        StatementKind::For(_, _, _, _) => for_statement(alloc, s, position, body),
        StatementKind::Switch(_, _) => switch_statement(alloc, s, position, body),
        StatementKind::Expression(e) => expression_statement(alloc, s.at, e, position, body),
        StatementKind::Return(e) => return_statement(alloc, s.at, e, position, body),
        StatementKind::Break => break_statement(s.at, position, body),
        StatementKind::Continue => continue_statement(s.at, position, body),
        StatementKind::Case(_, _) => Err(stray_label(s.at)),
        StatementKind::Default(_) => Err(stray_label(s.at)),
    }
}

#[cycle(statements)]
fn block_statement(
    alloc: Global,
    s: &Statement,
    position: Position,
    body: &mut Body,
) -> Result<Stmt, Stop>
    requires { IsBlock s.now.kind }
    ensures { IsLeaf position body.old (statement_in s.now) body.new result }
{
    let StatementKind::Block(list) = &s.kind else {
        unreachable!()
    };
    let mark = opened(body)?;
    let done = items(alloc, &list.items, position, body)?;
    closed(mark, body);
    Ok(block_made(done))
}

#[cycle(statements)]
fn if_statement(
    alloc: Global,
    s: &Statement,
    position: Position,
    body: &mut Body,
) -> Result<Stmt, Stop>
    requires { IsIf s.now.kind }
    ensures { IsLeaf position body.old (statement_in s.now) body.new result }
{
    let StatementKind::If(e, first, second) = &s.kind else {
        unreachable!()
    };
    let test = tested(alloc, s.at, e, body)?;
    let u = statement(alloc, first, position, body)?;
    match second {
        None => if_made(alloc, test, u, block_made(Vec::new(alloc))),
        Some(other) => {
            let v = statement(alloc, other, position, body)?;
            if_made(alloc, test, u, v)
        }
    }
}

#[cycle(statements)]
fn while_statement(
    alloc: Global,
    s: &Statement,
    position: Position,
    body: &mut Body,
) -> Result<Stmt, Stop>
    requires { IsWhile s.now.kind }
    ensures { IsLeaf position body.old (statement_in s.now) body.new result }
{
    let StatementKind::While(e, turn) = &s.kind else {
        unreachable!()
    };
    let test = tested(alloc, s.at, e, body)?;
    let u = statement(alloc, turn, looped(position), body)?;
    while_made(alloc, test, u)
}

#[cycle(statements)]
fn do_statement(
    alloc: Global,
    s: &Statement,
    position: Position,
    body: &mut Body,
) -> Result<Stmt, Stop>
    requires { IsDoWhile s.now.kind }
    ensures { IsLeaf position body.old (statement_in s.now) body.new result }
{
    let StatementKind::DoWhile(turn, e) = &s.kind else {
        unreachable!()
    };
    let u = statement(alloc, turn, looped(position), body)?;
    let test = tested(alloc, s.at, e, body)?;
    do_made(alloc, u, test)
}

#[cycle(statements)]
fn for_statement(
    alloc: Global,
    s: &Statement,
    position: Position,
    body: &mut Body,
) -> Result<Stmt, Stop>
    requires { IsFor s.now.kind }
    ensures { IsLeaf position body.old (statement_in s.now) body.new result }
{
    let StatementKind::For(i, c, n, turn) = &s.kind else {
        unreachable!()
    };
    let mark = body.place.scope.mark();
    let h = head(alloc, s.at, i, c, n, body)?;
    let u = statement(alloc, turn, looped(position), body)?;
    closed(mark, body);
    for_made(alloc, h, u)
}

#[cycle(statements)]
fn switch_statement(
    alloc: Global,
    s: &Statement,
    position: Position,
    body: &mut Body,
) -> Result<Stmt, Stop>
    requires { IsSwitch s.now.kind }
    ensures { IsLeaf position body.old (statement_in s.now) body.new result }
{
    let StatementKind::Switch(e, list) = &s.kind else {
        unreachable!()
    };
    let chosen = selected_by(alloc, s.at, e, body)?;
    let mark = opened(body)?;
    let mut labels = no_labels(alloc);
    let inside = switched(position);
    let done = cases(alloc, &list.items, chosen.ty, inside, body, &mut labels)?;
    closed(mark, body);
    switch_made(chosen, labels, done)
}

/// What the items of a block are typed to, in order.
#[cycle(statements)]
pub fn items(
    alloc: Global,
    list: &[BlockItem],
    position: Position,
    body: &mut Body,
) -> Result<Vec<Stmt>, Stop>
    ensures { MatchResult result (λ us. ItemsDone position body.old list.now body.new us.items)
        (IsBodyFault body.old position (b.some_items (block_items_of list.now))) }
{
    let mut done = Vec::new(alloc);
    for x in list {
        item(alloc, x, position, body, &mut done)?;
    }
    Ok(done)
}

#[cycle(statements)]
fn item(
    alloc: Global,
    x: &BlockItem,
    position: Position,
    body: &mut Body,
    done: &mut Vec<Stmt>,
) -> Result<(), Stop>
    ensures { MatchResult result (λ _. ItemDone position body.old done.old.items x.now body.new
        done.new.items) (IsItemFault position body.old x.now) }
{
    match x {
        BlockItem::Declaration(d) => declaration(alloc, d, body, done),
        BlockItem::Statement(s) => {
            let u = statement(alloc, s, position, body)?;
            done.push(u)?;
            Ok(())
        }
    }
}

/// What the items of a switch's block are typed to, in order, with the labels.
#[cycle(statements)]
fn cases(
    alloc: Global,
    list: &[BlockItem],
    ty: Integer,
    position: Position,
    body: &mut Body,
    labels: &mut Labels,
) -> Result<Vec<Stmt>, Stop>
    requires told { Tells labels.old }
    requires no_case { labels.old.cases.items ≡ [] }
    requires no_default { labels.old.otherwise ≡ None }
    ensures { MatchResult result (λ us. CasesDone ty position body.old list.now body.new us.items
        labels.new.cases.items labels.new.otherwise)
        (IsBodyFault body.old position (b.some_cases ty 0 none (block_items_of list.now))) }
{
    let mut done = Vec::new(alloc);
    for x in list {
        case_item(alloc, x, ty, position, body, labels, &mut done)?;
    }
    Ok(done)
}

#[cycle(statements)]
fn case_item(
    alloc: Global,
    x: &BlockItem,
    ty: Integer,
    position: Position,
    body: &mut Body,
    labels: &mut Labels,
    done: &mut Vec<Stmt>,
) -> Result<(), Stop>
    requires { Tells labels.old }
    ensures { MatchResult result (λ _. CaseItemDone ty position body.old done.old.items labels.old
        x.now body.new done.new.items labels.new)
        (IsCaseItemFault ty position body.old (length done.old.items) labels.old x.now) }
{
    match x {
        BlockItem::Declaration(d) => declaration(alloc, d, body, done),
        BlockItem::Statement(s) => {
            let n = place(done)?;
            let u = labelled(alloc, s, ty, n, position, body, labels)?;
            done.push(u)?;
            Ok(())
        }
    }
}

fn place(done: &[Stmt]) -> Result<u32, Stop>
    ensures { MatchResult result (λ n. n ≡ length done.now) IsNoRule }
{
    match u32::try_from(done.len()) {
        Ok(n) => Ok(n),
        Err(_) => Err(Stop::from(beyond_memory())),
    }
}

fn is_label(s: &Statement) -> bool
    ensures { result ≡ b.is_label (statement_in s.now) }
{
    match &s.kind {
        StatementKind::Case(_, _) | StatementKind::Default(_) => true,
        _ => false,
    }
}

/// A statement directly in a switch's block, with its labels; so many statements stand before it.
#[cycle(statements)]
fn labelled(
    alloc: Global,
    s: &Statement,
    ty: Integer,
    n: u32,
    position: Position,
    body: &mut Body,
    labels: &mut Labels,
) -> Result<Stmt, Stop>
    requires { Tells labels.old }
    ensures { MatchResult result (LabelledDone ty n position body.old labels.old
        (statement_in s.now) body.new labels.new)
        (IsLabelledFault ty n position body.old labels.old (statement_in s.now)) }
{
    if !is_label(s) {
        return statement(alloc, s, position, body);
    }
    match &s.kind {
        StatementKind::Case(e, inner) => {
            case_label(alloc, s.at, e, ty, n, body, labels)?;
            labelled(alloc, inner, ty, n, position, body, labels)
        }
        StatementKind::Default(inner) => {
            default_label(s.at, n, labels)?;
            labelled(alloc, inner, ty, n, position, body, labels)
        }
        _ => unreachable!(),
    }
}
