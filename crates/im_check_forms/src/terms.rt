//! The terms of expressions: the rules are asked of the terms of the parts, of which the term is made.
ghost use Rattle.std.specs.Prelude.{◌≡◌, [], ◌∷◌, IfOk};
ghost use Rattle.im_ctype.specs.Table.{Table, structs_of};
ghost use Rattle.im_check_operations.specs.im_rules.Conversions as c;
ghost use Rattle.im_check_operations.specs.im_rules.Demands as d;
ghost use Rattle.im_check_operations.specs.im_rules.Rules as u;
ghost use Rattle.im_check_operations.specs.im_rules.Terms as r;
ghost use Rattle.im_types.specs.Shape.{type_of};
ghost use Rattle.im_check_operands.specs.Shape.{term_in};
ghost use Rattle.im_check_operands.specs.Answers.{IsMade};

use im_check_conversions::{literal, value_of};
use im_check_operands::{
    Term, allows, are_alike, casts, has_size, is_indexed, is_integer_term, is_lvalue,
    is_pointer_to_complete, is_scalar_term, rule_of,
};
use im_check_operations::{
    addressed, bytes_of, casted, chosen, joined, negated, operation, pointed, promoted_value, sum,
    unary_operation,
};
use im_check_stop::{Stop, refused};
use im_ctree::{BinaryOp, UnaryOp};
use im_ctype::{Integer, TypeTable};
use im_num::NoMemory;
use im_store as store;
use im_store::Number;
use im_types::Type;
use std::alloc::Global;

fn size_value(table: &TypeTable, ty: &Type) -> Result<Term, NoMemory>
    ensures { IfOk result (λ t. term_in table.now t
        ≡ r.value (c.measured (structs_of table.now) (type_of ty.now))) }
{
    let bytes = bytes_of(table, ty)?;
    Ok(Term::Value(literal(
        Integer::UnsignedInt,
        Number {
            value: bytes as i128,
        },
    )))
}

/// `sizeof` of a type (C11 6.5.3.4).
pub fn size_term(table: &TypeTable, at: u32, ty: &Type) -> Result<Term, Stop>
    ensures { IsMade table.now (d.size_asks (structs_of table.now) (type_of ty.now))
        (r.value (c.measured (structs_of table.now) (type_of ty.now))) at result }
{
    if !has_size(table, ty) {
        return Err(refused(33, at));
    }
    let made = size_value(table, ty)?;
    Ok(made)
}

/// `a[b]` (C11 6.5.2.1).
#[inline(never)]
pub fn index_term(alloc: Global, table: &TypeTable, at: u32, x: Term, y: Term) -> Result<Term, Stop>
    ensures { IsMade table.now
        (d.index_asks (structs_of table.now) (term_in table.now x) (term_in table.now y))
        (c.pointed (c.sum (structs_of table.now)
        (r.value_of (structs_of table.now) (term_in table.now x))
        (r.value_of (structs_of table.now) (term_in table.now y)))) at result }
{
    if !is_indexed(table, &x, &y) {
        return Err(refused(20, at));
    }
    let left = value_of(alloc, table, x)?;
    let right = value_of(alloc, table, y)?;
    let pointer = sum(alloc, table, left, right)?;
    let made = pointed(alloc, pointer)?;
    Ok(made)
}

fn plus_term(alloc: Global, table: &TypeTable, at: u32, x: Term) -> Result<Term, Stop>
    ensures { IsMade table.now (d.unary_asks (structs_of table.now) UnaryOp.Plus
        (term_in table.now x)) (c.unary_term (structs_of table.now) UnaryOp.Plus
        (term_in table.now x)) at result }
{
    if !is_integer_term(&x) {
        return Err(refused(25, at));
    }
    let value = value_of(alloc, table, x)?;
    let made = promoted_value(alloc, value)?;
    Ok(Term::Value(made))
}

fn operated_term(
    alloc: Global,
    table: &TypeTable,
    at: u32,
    op: store::UnaryOp,
    x: Term,
) -> Result<Term, Stop>
    ensures { IsMade table.now
        (d.asks 25 (u.rule_25_arithmetic (r.operand_of (term_in table.now x))) ∷ [])
        (r.value (c.unary_value op (r.value_of (structs_of table.now) (term_in table.now x)))) at
        result }
{
    if !is_integer_term(&x) {
        return Err(refused(25, at));
    }
    let value = value_of(alloc, table, x)?;
    let made = unary_operation(alloc, op, value)?;
    Ok(Term::Value(made))
}

fn not_term(alloc: Global, table: &TypeTable, at: u32, x: Term) -> Result<Term, Stop>
    ensures { IsMade table.now (d.unary_asks (structs_of table.now) UnaryOp.Not
        (term_in table.now x)) (c.unary_term (structs_of table.now) UnaryOp.Not
        (term_in table.now x)) at result }
{
    if !is_scalar_term(&x) {
        return Err(refused(25, at));
    }
    let value = value_of(alloc, table, x)?;
    let made = negated(alloc, value)?;
    Ok(Term::Value(made))
}

fn address_term(alloc: Global, at: u32, x: Term) -> Result<Term, Stop>
    ensures { (types : Table) → IsMade types (d.unary_asks (structs_of types) UnaryOp.AddressOf
        (term_in types x)) (c.unary_term (structs_of types) UnaryOp.AddressOf (term_in types x)) at
        result }
{
    if !is_lvalue(&x) {
        return Err(refused(22, at));
    }
    let made = addressed(alloc, x)?;
    Ok(Term::Value(made))
}

fn target_term(alloc: Global, table: &TypeTable, at: u32, x: Term) -> Result<Term, Stop>
    ensures { IsMade table.now (d.unary_asks (structs_of table.now) UnaryOp.Dereference
        (term_in table.now x)) (c.unary_term (structs_of table.now) UnaryOp.Dereference
        (term_in table.now x)) at result }
{
    if !is_pointer_to_complete(table, &x) {
        return Err(refused(24, at));
    }
    let value = value_of(alloc, table, x)?;
    let made = pointed(alloc, value)?;
    Ok(made)
}

/// A unary operator (C11 6.5.3.2, 6.5.3.3).
pub fn unary_term(
    alloc: Global,
    table: &TypeTable,
    at: u32,
    op: UnaryOp,
    x: Term,
) -> Result<Term, Stop>
    ensures { IsMade table.now (d.unary_asks (structs_of table.now) op (term_in table.now x))
        (c.unary_term (structs_of table.now) op (term_in table.now x)) at result }
{
    match op {
        UnaryOp::Plus => plus_term(alloc, table, at, x),
        UnaryOp::Minus => operated_term(alloc, table, at, store::UnaryOp::Negate, x),
        UnaryOp::BitNot => operated_term(alloc, table, at, store::UnaryOp::Complement, x),
        UnaryOp::Not => not_term(alloc, table, at, x),
        UnaryOp::AddressOf => address_term(alloc, at, x),
        UnaryOp::Dereference => target_term(alloc, table, at, x),
    }
}

/// A binary operator (C11 6.5.5 to 6.5.14).
pub fn binary_term(
    alloc: Global,
    table: &TypeTable,
    at: u32,
    op: BinaryOp,
    x: Term,
    y: Term,
) -> Result<Term, Stop>
    ensures { IsMade table.now
        (d.binary_asks (structs_of table.now) op (term_in table.now x) (term_in table.now y))
        (r.value (c.operation (structs_of table.now) op
        (r.value_of (structs_of table.now) (term_in table.now x))
        (r.value_of (structs_of table.now) (term_in table.now y)))) at result }
{
    if !allows(table, op, &x, &y) {
        return Err(refused(rule_of(op), at));
    }
    let left = value_of(alloc, table, x)?;
    let right = value_of(alloc, table, y)?;
    let made = operation(alloc, table, op, left, right)?;
    Ok(Term::Value(made))
}

/// `?:` (C11 6.5.15).
pub fn conditional_term(
    alloc: Global,
    table: &TypeTable,
    at: u32,
    test: Term,
    x: Term,
    y: Term,
) -> Result<Term, Stop>
    ensures { IsMade table.now (d.conditional_asks (term_in table.now test) (term_in table.now x)
        (term_in table.now y)) (r.value (c.chosen (structs_of table.now)
        (r.value_of (structs_of table.now) (term_in table.now test))
        (r.value_of (structs_of table.now) (term_in table.now x))
        (r.value_of (structs_of table.now) (term_in table.now y)))) at result }
{
    if !is_scalar_term(&test) {
        return Err(refused(25, at));
    }
    if !are_alike(&x, &y) {
        return Err(refused(31, at));
    }
    let condition = value_of(alloc, table, test)?;
    let first = value_of(alloc, table, x)?;
    let second = value_of(alloc, table, y)?;
    let made = chosen(alloc, condition, first, second)?;
    Ok(Term::Value(made))
}

/// A cast (C11 6.5.4).
pub fn cast_term(alloc: Global, table: &TypeTable, at: u32, ty: Type, x: Term) -> Result<Term, Stop>
    ensures { IsMade table.now (d.cast_asks (type_of ty) (term_in table.now x)) (r.value
        (c.casted (type_of ty) (r.value_of (structs_of table.now) (term_in table.now x)))) at
        result }
{
    if !casts(&ty, &x) {
        return Err(refused(32, at));
    }
    let value = value_of(alloc, table, x)?;
    let made = casted(alloc, ty, value)?;
    Ok(Term::Value(made))
}

/// `,` (C11 6.5.17).
pub fn comma_term(alloc: Global, table: &TypeTable, x: Term, y: Term) -> Result<Term, NoMemory>
    ensures { IfOk result (λ t. term_in table.now t ≡ r.value (c.joined
        (r.value_of (structs_of table.now) (term_in table.now x))
        (r.value_of (structs_of table.now) (term_in table.now y)))) }
{
    let left = value_of(alloc, table, x)?;
    let right = value_of(alloc, table, y)?;
    let made = joined(alloc, left, right)?;
    Ok(Term::Value(made))
}
