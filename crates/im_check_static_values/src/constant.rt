//! What a typed expression is as a constant expression (C11 6.6p3, p6).
ghost use Rattle.std.specs.Prelude.{◌≡◌, ◌≤◌, ◌<◌, false, pos, IfOk, MatchResult};
ghost use Rattle.im_ctype.specs.Table.{Table};
ghost use Rattle.im_typed.specs.Program as p;
ghost use Rattle.im_typed.specs.ProgramOf.{expr_of};
ghost use Rattle.im_typed.specs.declared.expression.Expr.{size-Expr};
ghost use Rattle.im_check_items.specs.im_rules.Constants as c;
ghost use Rattle.im_check_constancy.specs.Told.{Told, number_in, variable as no_constant};
ghost use Rattle.im_check_static_values.specs.Chains.{converted};

use im_check_constancy::{
    Annotated, binary, choice, comparison, conjunction, conversion, disjunction, negation, number,
    unary, variable,
};
use im_num::{Kind, NoMemory, beyond_memory};
use im_store::Number;
use im_typed::Expr;
use std::alloc::Global;
use std::mem;

/// A number that the operators work on.
fn number_from(z: i128) -> Result<Number, NoMemory>
    ensures { IfOk result (λ n. n.value ≡ z) }
{
    match Number::of(z) {
        Some(number) => Ok(number),
        None => Err(beyond_memory()),
    }
}

fn constant(kind: Kind, z: i128) -> Result<Annotated, NoMemory>
    ensures { (types : Table) → IfOk result (λ a. expr_of types a.tree ≡ p.Constant kind z) }
{
    let value = number_from(z)?;
    Ok(number(kind, value))
}

/// An expression out of its place, in which null stays.
pub(crate) fn taken(e: &mut Expr) -> Expr
    ensures { result ≡ e.old }
{
    mem::replace(e, Expr::Null)
}

/// A conversion's kind and what is converted; an expression that is none as it is.
fn conversion_in(e: Expr) -> Result<(Kind, Expr), Expr>
    ensures { MatchResult result (λ r. ((types : Table) → expr_of types e
        ≡ p.Convert r.0 (expr_of types r.1)) × (size-Expr r.1 < size-Expr e)) (λ x. x ≡ e) }
{
    let mut e = e;
    match &mut e {
        Expr::Convert(kind, operand) => Ok((*kind, taken(operand))),
        _ => Err(e),
    }
}

/// What is converted, and the kinds of its conversions, the last one first.
fn unconverted(alloc: Global, e: Expr) -> Result<(Vec<Kind>, Expr), NoMemory>
    ensures whole { (types : Table) → IfOk result (λ r. converted r.0.items (expr_of types r.1)
        ≡ expr_of types e) }
    ensures below { IfOk result (λ r. size-Expr r.1 ≤ size-Expr e) }
{
    let mut kinds = Vec::new(alloc);
    let mut rest = e;
    loop {
        match conversion_in(rest) {
            Ok((kind, operand)) => {
                kinds.push(kind)?;
                rest = operand;
            }
            Err(operand) => return Ok((kinds, operand)),
        }
    }
}

/// An expression converted to these kinds, the last one first.
fn conversions(alloc: Global, mut kinds: Vec<Kind>, e: Annotated) -> Result<Annotated, NoMemory>
    ensures { (types : Table) → IfOk result (λ a. expr_of types a.tree
        ≡ converted kinds.items (expr_of types e.tree)) }
{
    let mut whole = e;
    while let Some(kind) = kinds.pop() {
        whole = conversion(alloc, kind, whole)?;
    }
    Ok(whole)
}

/// A typed expression beside what it is as a constant expression. Loops go down its conversions
/// and back, so that chains of them take no stack. Want of memory where a number in it has more
/// than 64 bits.
#[cycle(annotated)]
pub fn annotated(alloc: Global, e: Expr) -> Result<Annotated, NoMemory>
    ensures { (types : Table) → IfOk result (λ a. expr_of types a.tree ≡ expr_of types e) }
{
    let (kinds, operand) = unconverted(alloc, e)?;
    let inner = annotated_form(alloc, operand)?;
    conversions(alloc, kinds, inner)
}

/// A typed expression whose operands are looked at each for itself.
#[cycle(annotated)]
fn annotated_form(alloc: Global, e: Expr) -> Result<Annotated, NoMemory>
    ensures { (types : Table) → IfOk result (λ a. expr_of types a.tree ≡ expr_of types e) }
{
    if let Expr::Number(kind, z) = &e {
        return constant(*kind, *z);
    }
    let mut e = e;
    match &mut e {
        Expr::Convert(kind, operand) => {
            let x = annotated(alloc, taken(operand))?;
            conversion(alloc, *kind, x)
        }
        Expr::Unary(op, kind, operand) => {
            let x = annotated(alloc, taken(operand))?;
            unary(alloc, *op, *kind, x)
        }
        Expr::Binary(op, kind, left, right) => {
            let x = annotated(alloc, taken(left))?;
            let y = annotated(alloc, taken(right))?;
            binary(alloc, *op, *kind, x, y)
        }
        Expr::Compare(op, kind, left, right) => {
            let x = annotated(alloc, taken(left))?;
            let y = annotated(alloc, taken(right))?;
            comparison(alloc, *op, *kind, x, y)
        }
        Expr::Not(operand) => {
            let x = annotated(alloc, taken(operand))?;
            negation(alloc, x)
        }
        Expr::And(left, right) => {
            let x = annotated(alloc, taken(left))?;
            let y = annotated(alloc, taken(right))?;
            conjunction(alloc, x, y)
        }
        Expr::Or(left, right) => {
            let x = annotated(alloc, taken(left))?;
            let y = annotated(alloc, taken(right))?;
            disjunction(alloc, x, y)
        }
        Expr::Choose(test, first, second) => {
            let w = annotated(alloc, taken(test))?;
            let x = annotated(alloc, taken(first))?;
            let y = annotated(alloc, taken(second))?;
            choice(alloc, w, x, y)
        }
        _ => Ok(variable(e)),
    }
}

/// The value of a constant expression; none of what is no constant expression. Want of memory where
/// a number in it has more than 64 bits.
pub fn constant_value(alloc: Global, e: Expr) -> Result<Option<Number>, NoMemory>
    ensures { (types : Table) → IfOk result (λ z. number_in z
        ≡ c.constant_value (expr_of types e)) }
{
    let whole = annotated(alloc, e)?;
    Ok(number_of(&whole))
}

/// The number that an expression is as a constant expression.
pub(crate) fn number_of(e: &Annotated) -> Option<Number>
    ensures { (types : Table) → number_in result ≡ c.constant_value (expr_of types e.now.tree) }
{
    if e.constancy.is_constant {
        e.constancy.value
    } else {
        None
    }
}
