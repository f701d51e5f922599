ghost use Rattle.std.specs.Prelude.{◌≡◌, ◌-◌, ◌+◌, ◌*◌, ◌^◌, ◌<◌, IfSome, MatchOption};
ghost use Rattle.std.specs.Prelude.{length, map, min, sum_by};
ghost use Rattle.std.specs.Option.{option_map};
ghost use Rattle.im_store.specs.im_ctype.Table.{Table};
ghost use Rattle.im_store.specs.Objects.{same_kind};
ghost use Rattle.im_typed.specs.ProgramOf.{access_of, place_of, expr_of, piece_of, stmt_of};
ghost use Rattle.im_typed.specs.ProgramOf.{object_of, func_of};
ghost use Rattle.im_typed.specs.declared.expression.Expr.{size-Expr};
ghost use Rattle.im_typed.specs.declared.expression.Place.{size-Place};
ghost use Rattle.im_typed.specs.Counts.{struct_cells, conversions_in, place_nodes, expr_nodes};
ghost use Rattle.im_typed.specs.Counts.{piece_nodes, optional_nodes, stmt_nodes, func_nodes};
ghost use Rattle.im_typed.specs.Counts.{func_need, slot_bytes};

use crate::expression::{Access, Change, Expr, Place};
use crate::program::{Func, Object};
use crate::statement::{Case, Piece, Stmt};

/// The nodes of a function: its parameters and local objects, and each place, expression,
/// conversion and statement of its body, with each cell of each struct assignment and of each
/// object with an initialiser, and 2 for each `case` label (C11 6.8.1). It stays at 2^64 - 1 once
/// it is reached.
pub fn nodes(func: &Func) -> u64
    ensures { (types : Table) → result ≡ min (func_nodes (func_of types func.now)) (2 ^ 64 - 1) }
{
    (func.objects.len() as u64).saturating_add(count_statement(&func.body))
}

/// The bytes that a function's frame may need: 16, 12 for each node, and for each parameter and
/// local object its size, rounded up to whole words of 4 bytes, and a word more. It stays at
/// 2^64 - 1 once it is reached.
pub fn need(func: &Func) -> u64
    ensures { (types : Table) → result ≡ min (func_need (func_of types func.now)) (2 ^ 64 - 1) }
{
    nodes(func)
        .saturating_mul(12)
        .saturating_add(16)
        .saturating_add(objects_bytes(&func.objects))
}

/// The bytes of objects in a frame, each in whole words and with an unused word behind it.
fn objects_bytes(objects: &[Object]) -> u64
    ensures { (types : Table) → result ≡ min (sum_by slot_bytes (map (object_of types) objects.now))
        (2 ^ 64 - 1) }
{
    let mut total: u64 = 0;
    for object in objects {
        let words = (object.size as u64 + 3) / 4;
        total = total.saturating_add(words * 4 + 4);
    }
    total
}

/// The cells that are counted of an assignment: each one of a struct's.
fn access_cells(access: Access) -> u64
    ensures { (types : Table) → result ≡ struct_cells (access_of types access) }
{
    match access {
        Access::Scalar(_) => 0,
        Access::Struct { cells, .. } => cells as u64,
    }
}

/// The conversions of an update: of the old value to the operator's kind, and of the result back.
fn change_conversions(change: Change) -> u64
    ensures { result ≡ conversions_in change }
{
    match change {
        Change::Number { kind, at, .. } if kind == at => 0,
        Change::Number { .. } => 2,
        Change::Move { .. } => 0,
    }
}

/// The nodes of a place and of the places that it is a member in, and the pointer that these are
/// reached by, if they are reached by one.
fn count_members(place: &Place) -> (u64, Option<&Expr>)
    ensures nodes { (types : Table) → let whole = place_nodes (place_of types place.now) in
        MatchOption result.1 (result.0 ≡ min whole (2 ^ 64 - 1))
        (λ pointer. min (result.0 + expr_nodes (expr_of types pointer.now)) (2 ^ 64 - 1)
        ≡ min whole (2 ^ 64 - 1)) }
    ensures below { IfSome result.1 (λ pointer. size-Expr pointer.now < size-Place place.now) }
{
    let mut total: u64 = 0;
    let mut part = place;
    loop {
        total = total.saturating_add(1);
        match part {
            Place::Static(_) | Place::Local(_) => return (total, None),
            Place::Target(pointer) => return (total, Some(pointer)),
            Place::Member(whole, _) => part = whole,
        }
    }
}

#[cycle(nodes)]
fn count_place(place: &Place) -> u64
    ensures { (types : Table) → result ≡ min (place_nodes (place_of types place.now)) (2 ^ 64 - 1) }
{
    match count_members(place) {
        (members, None) => members,
        (members, Some(pointer)) => count_expression(pointer).saturating_add(members),
    }
}

/// A node over two parts, by their nodes.
fn node_over(left: u64, right: u64) -> u64
    ensures { result ≡ min (1 + left + right) (2 ^ 64 - 1) }
{
    left.saturating_add(right).saturating_add(1)
}

/// The nodes of an expression. A loop goes down its first operands, so that chains of them take no
/// stack.
#[cycle(nodes)]
fn count_expression(expression: &Expr) -> u64
    ensures { (types : Table) → result ≡ min (expr_nodes (expr_of types expression.now))
        (2 ^ 64 - 1) }
{
    let mut total: u64 = 0;
    let mut rest = expression;
    loop {
        let (nodes, operand) = count_behind(rest);
        total = total.saturating_add(nodes);
        match operand {
            None => return total,
            Some(operand) => rest = operand,
        }
    }
}

/// The nodes of an expression without those of its first operand, and that operand, if it has one.
#[cycle(nodes)]
fn count_behind(expression: &Expr) -> (u64, Option<&Expr>)
    ensures nodes { (types : Table) → let whole = expr_nodes (expr_of types expression.now) in
        MatchOption result.1 (result.0 ≡ min whole (2 ^ 64 - 1))
        (λ operand. min (result.0 + expr_nodes (expr_of types operand.now)) (2 ^ 64 - 1)
        ≡ min whole (2 ^ 64 - 1)) }
    ensures below { IfSome result.1 (λ operand.
        size-Expr operand.now < size-Expr expression.now) }
{
    match expression {
        Expr::Number(_, _) | Expr::Null | Expr::Serve(_) => (1, None),
        Expr::Read(_, place) | Expr::Address(place) => {
            let (members, pointer) = count_members(place);
            (members.saturating_add(1), pointer)
        }
        Expr::Convert(_, operand)
        | Expr::Unary(_, _, operand)
        | Expr::Not(operand)
        | Expr::Discard(operand)
        | Expr::Part { whole: operand, .. }
        | Expr::ServeWith(_, operand) => (1, Some(operand)),
        Expr::Move { pointer, by, .. } | Expr::MoveBy { by, pointer, .. } => {
            (count_expression(by).saturating_add(1), Some(pointer))
        }
        Expr::Binary(_, _, left, right)
        | Expr::Distance { left, right, .. }
        | Expr::Compare(_, _, left, right)
        | Expr::And(left, right)
        | Expr::Or(left, right)
        | Expr::Comma(left, right) => (count_expression(right).saturating_add(1), Some(left)),
        Expr::Choose(test, first, second) => {
            (
                node_over(count_expression(first), count_expression(second)),
                Some(test),
            )
        }
        Expr::Assign(access, place, value) => {
            let parts = node_over(count_place(place), count_expression(value));
            (parts.saturating_add(access_cells(*access)), None)
        }
        Expr::Update { place, change, by } => {
            let parts = node_over(count_place(place), count_expression(by));
            (parts.saturating_add(change_conversions(*change)), None)
        }
        Expr::Increment { place, change, .. } => {
            (
                node_over(count_place(place), change_conversions(*change)),
                None,
            )
        }
        Expr::Call(_, arguments) => (count_arguments(arguments).saturating_add(1), None),
    }
}

#[cycle(nodes)]
fn count_arguments(expressions: &[Expr]) -> u64
    ensures { (types : Table) → result ≡ min (sum_by (λ e. expr_nodes (expr_of types e))
        expressions.now) (2 ^ 64 - 1) }
{
    let mut total: u64 = 0;
    for expression in expressions {
        total = total.saturating_add(count_expression(expression));
    }
    total
}

fn count_pieces(pieces: &[Piece]) -> u64
    ensures { (types : Table) → result ≡ min (sum_by piece_nodes (map (piece_of types) pieces.now))
        (2 ^ 64 - 1) }
{
    let mut total: u64 = 0;
    for piece in pieces {
        total = total.saturating_add(count_expression(&piece.value));
    }
    total
}

fn count_result(value: &Option<Expr>) -> u64
    ensures { (types : Table) → result ≡ min (optional_nodes (option_map (expr_of types) value.now))
        (2 ^ 64 - 1) }
{
    match value {
        None => 0,
        Some(value) => count_expression(value),
    }
}

/// The nodes of the labels of a switch: of each the labelled statement and the constant.
fn count_labels(cases: &[Case]) -> u64
    ensures { result ≡ min (2 * length cases.now) (2 ^ 64 - 1) }
{
    (cases.len() as u64).saturating_mul(2)
}

#[cycle(statements)]
fn count_statement(statement: &Stmt) -> u64
    ensures { (types : Table) → result ≡ min (stmt_nodes (stmt_of types statement.now))
        (2 ^ 64 - 1) }
{
    match statement {
        Stmt::Forget(_) | Stmt::Break | Stmt::Continue => 1,
        Stmt::Expr(value) => count_expression(value).saturating_add(1),
        Stmt::Initialise { cells, pieces, .. } => node_over(*cells as u64, count_pieces(pieces)),
        Stmt::Block(statements) => count_block(statements).saturating_add(1),
        Stmt::If(test, first, second) => node_over(
            count_expression(test),
            count_statement(first),
        ).saturating_add(count_statement(second)),
        Stmt::While(test, body) | Stmt::DoWhile(body, test) => {
            node_over(count_expression(test), count_statement(body))
        }
        Stmt::For {
            first,
            test,
            step,
            body,
        } => {
            node_over(count_statement(first), count_expression(test))
                .saturating_add(count_expression(step))
                .saturating_add(count_statement(body))
        }
        Stmt::Switch {
            value,
            cases,
            block,
            ..
        } => {
            let parts = node_over(count_expression(value), count_block(block));
            parts.saturating_add(count_labels(cases))
        }
        Stmt::Return(value) => count_result(value).saturating_add(1),
    }
}

#[cycle(statements)]
fn count_block(statements: &[Stmt]) -> u64
    ensures { (types : Table) → result ≡ min (sum_by (λ s. stmt_nodes (stmt_of types s))
        statements.now) (2 ^ 64 - 1) }
{
    let mut total: u64 = 0;
    for statement in statements {
        total = total.saturating_add(count_statement(statement));
    }
    total
}
