//! The terms of assignments, `++` and `--`.
ghost use Rattle.std.specs.Prelude.{◌≡◌, [], IfOk};
ghost use Rattle.im_ctype.specs.Table.{structs_of};
ghost use Rattle.im_check_operations.specs.im_rules.Conversions as c;
ghost use Rattle.im_check_operations.specs.im_rules.Demands as d;
ghost use Rattle.im_check_operations.specs.im_rules.Rules as u;
ghost use Rattle.im_check_operations.specs.im_rules.Terms as r;
ghost use Rattle.im_check_operands.specs.Shape.{term_in, value_in};
ghost use Rattle.im_check_operands.specs.Answers.{IsMade, assigned_rule};

use im_check_conversions::{type_in, value_of};
use im_check_operands::{Term, Value, fits, is_changeable, is_lvalue, may_step, may_update};
use im_check_operations::{assigned, operator_of, stepped};
use im_check_stop::{Stop, refused};
use im_ctree::{AssignOp, StepOp};
use im_ctype::TypeTable;
use im_num::NoMemory;
use std::alloc::Global;

/// What a change by 1 gives; a value stays as it is.
fn step_value(
    alloc: Global,
    table: &TypeTable,
    op: StepOp,
    old: bool,
    x: Term,
) -> Result<Value, NoMemory>
    ensures { IfOk result (λ v. value_in table.now v
        ≡ c.stepped (structs_of table.now) op old (term_in table.now x)) }
{
    match x {
        Term::Lvalue(_, ty, place) => stepped(alloc, table, op, old, ty, place),
        Term::Value(value) => Ok(value),
    }
}

/// `++` and `--`. With `old` the value is the one before. `free` tells of each struct whether it is
/// free of `const`.
pub fn step_term(
    alloc: Global,
    table: &TypeTable,
    free: &[bool],
    at: u32,
    op: StepOp,
    old: bool,
    x: Term,
) -> Result<Term, Stop>
    requires { free.now ≡ u.free_from [] (structs_of table.now) }
    ensures { IsMade table.now (d.step_asks (structs_of table.now) (term_in table.now x))
        (r.value (c.stepped (structs_of table.now) op old (term_in table.now x))) at result }
{
    if !is_lvalue(&x) {
        return Err(refused(22, at));
    }
    if !is_changeable(table, free, &x) {
        return Err(refused(23, at));
    }
    if !may_step(table, &x) {
        return Err(refused(30, at));
    }
    let made = step_value(alloc, table, op, old, x)?;
    Ok(Term::Value(made))
}

fn rule_of_assignment(op: AssignOp) -> u32
    ensures { result ≡ assigned_rule (c.operator_of op) }
{
    match operator_of(op) {
        None => 17,
        Some(_) => 30,
    }
}

/// Whether the value may be assigned, or its operator applied.
fn may_assign(table: &TypeTable, op: AssignOp, x: &Term, y: &Term) -> bool
    ensures { result ≡ (d.assigned_asks (structs_of table.now) (c.operator_of op)
        (term_in table.now x.now) (term_in table.now y.now)).holds }
{
    match operator_of(op) {
        None => fits(type_in(x), y),
        Some(operator) => may_update(table, operator, x, y),
    }
}

/// What an assignment gives; to what is no lvalue nothing is assigned.
fn assigned_value(
    alloc: Global,
    table: &TypeTable,
    op: AssignOp,
    x: Term,
    y: Value,
) -> Result<Value, NoMemory>
    ensures { IfOk result (λ v. value_in table.now v ≡ c.assigned (structs_of table.now) op
        (term_in table.now x) (value_in table.now y)) }
{
    match x {
        Term::Lvalue(_, ty, place) => assigned(alloc, table, op, ty, place, y),
        Term::Value(_) => Ok(y),
    }
}

/// An assignment (C11 6.5.16). `free` tells of each struct whether it is free of `const`.
pub fn assign_term(
    alloc: Global,
    table: &TypeTable,
    free: &[bool],
    at: u32,
    op: AssignOp,
    x: Term,
    y: Term,
) -> Result<Term, Stop>
    requires { free.now ≡ u.free_from [] (structs_of table.now) }
    ensures { IsMade table.now
        (d.assign_asks (structs_of table.now) op (term_in table.now x) (term_in table.now y))
        (r.value (c.assigned (structs_of table.now) op (term_in table.now x)
        (r.value_of (structs_of table.now) (term_in table.now y)))) at result }
{
    if !is_lvalue(&x) {
        return Err(refused(22, at));
    }
    if !is_changeable(table, free, &x) {
        return Err(refused(23, at));
    }
    if !may_assign(table, op, &x, &y) {
        return Err(refused(rule_of_assignment(op), at));
    }
    let value = value_of(alloc, table, y)?;
    let made = assigned_value(alloc, table, op, x, value)?;
    Ok(Term::Value(made))
}
