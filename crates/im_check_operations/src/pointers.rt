//! Addresses, what stands at them, and pointers moved (C11 6.5.3.2, 6.5.6).
ghost use Rattle.std.specs.Prelude.{◌≡◌, IfOk};
ghost use Rattle.im_ctype.specs.Table.{Table, structs_of};
ghost use Rattle.im_typed.specs.Program as p;
ghost use Rattle.im_typed.specs.ProgramOf.{expr_of, place_of};
ghost use Rattle.im_check_conversions.specs.im_rules.Conversions as c;
ghost use Rattle.im_check_conversions.specs.im_rules.Terms as r;
ghost use Rattle.im_check_conversions.specs.im_rules.TypeTests as q;
ghost use Rattle.im_types.specs.Shape.{type_of};
ghost use Rattle.im_check_operands.specs.Shape.{value_in, term_in};

use im_check_conversions::of_variable;
use im_check_operands::{Term, Value};
use im_ctype::{Integer, TypeTable};
use im_num::{NoMemory, beyond_memory};
use im_typed::{Expr, Place};
use im_types::{Type, pointer_to, size};
use std::alloc::Global;

/// The bytes of an object of this type (C11 6.5.3.4).
pub fn bytes_of(table: &TypeTable, ty: &Type) -> Result<u32, NoMemory>
    ensures { IfOk result (λ n. n ≡ r.size_in (structs_of table.now) (type_of ty.now)) }
{
    let bytes = size(table, ty)?;
    match u32::try_from(bytes) {
        Ok(n) => Ok(n),
        Err(_) => Err(beyond_memory()),
    }
}

/// What a pointer points to; what is no pointer itself.
pub fn target_of(ty: &Type) -> &Type
    ensures { type_of result.now ≡ q.target_of (type_of ty.now) }
{
    match ty {
        Type::Pointer(_, target) => target,
        Type::Void
        | Type::Integer(_)
        | Type::Array(_, _)
        | Type::Unsized(_)
        | Type::Struct(_)
        | Type::Function(_, _) => ty,
    }
}

/// Whether a pointer's target is `const`.
pub fn target_constant(ty: &Type) -> bool
    ensures { result ≡ q.target_constant (type_of ty.now) }
{
    match ty {
        Type::Pointer(constant, _) => *constant,
        Type::Void
        | Type::Integer(_)
        | Type::Array(_, _)
        | Type::Unsized(_)
        | Type::Struct(_)
        | Type::Function(_, _) => false,
    }
}

/// The bytes of an element that a pointer moves by.
pub fn element_size(table: &TypeTable, ty: &Type) -> Result<u32, NoMemory>
    ensures { IfOk result (λ n. n ≡ c.element_size (structs_of table.now) (type_of ty.now)) }
{
    bytes_of(table, target_of(ty))
}

/// A pointer moved by what stands behind it.
pub fn moved_behind(
    alloc: Global,
    table: &TypeTable,
    back: bool,
    x: Value,
    y: Value,
) -> Result<Value, NoMemory>
    ensures { IfOk result (λ v. value_in table.now v ≡ record {
      type = type_of x.ty;
      expr = p.Move (c.element_size (structs_of table.now) (type_of x.ty)) back
          (expr_of table.now x.expr.tree) (expr_of table.now y.expr.tree);
    }) }
{
    let size = element_size(table, &x.ty)?;
    let ty = x.ty;
    let pointer = Box::new(alloc, x.expr.tree)?;
    let by = Box::new(alloc, y.expr.tree)?;
    let expr = Expr::Move {
        size,
        back,
        pointer,
        by,
    };
    Ok(of_variable(ty, expr))
}

/// A pointer moved by what stands before it.
pub fn moved_before(alloc: Global, table: &TypeTable, x: Value, y: Value) -> Result<Value, NoMemory>
    ensures { IfOk result (λ v. value_in table.now v ≡ record {
      type = type_of y.ty;
      expr = p.MoveBy (c.element_size (structs_of table.now) (type_of y.ty))
          (expr_of table.now x.expr.tree) (expr_of table.now y.expr.tree);
    }) }
{
    let size = element_size(table, &y.ty)?;
    let ty = y.ty;
    let by = Box::new(alloc, x.expr.tree)?;
    let pointer = Box::new(alloc, y.expr.tree)?;
    Ok(of_variable(ty, Expr::MoveBy { size, by, pointer }))
}

/// The elements between two pointers (C11 6.5.6p9).
pub fn distance(alloc: Global, table: &TypeTable, x: Value, y: Value) -> Result<Value, NoMemory>
    ensures { IfOk result (λ v. value_in table.now v ≡ c.int_value
        (p.Distance (c.element_size (structs_of table.now) (type_of x.ty))
        (expr_of table.now x.expr.tree) (expr_of table.now y.expr.tree))) }
{
    let size = element_size(table, &x.ty)?;
    let left = Box::new(alloc, x.expr.tree)?;
    let right = Box::new(alloc, y.expr.tree)?;
    let expr = Expr::Distance { size, left, right };
    Ok(of_variable(Type::Integer(Integer::Int), expr))
}

/// What a pointer points to; what is no pointer itself.
fn target_type(ty: Type) -> Type
    ensures { type_of result ≡ q.target_of (type_of ty) }
{
    ty.into_target()
}

/// What a pointer points to (C11 6.5.3.2p4).
pub fn pointed(alloc: Global, v: Value) -> Result<Term, NoMemory>
    ensures { (types : Table) → IfOk result
        (λ t. term_in types t ≡ c.pointed (value_in types v)) }
{
    let constant = target_constant(&v.ty);
    let ty = target_type(v.ty);
    let place = Place::Target(Box::new(alloc, v.expr.tree)?);
    Ok(Term::Lvalue(constant, ty, place))
}

/// `&` of a term (C11 6.5.3.2p3); a value stays as it is.
pub fn addressed(alloc: Global, term: Term) -> Result<Value, NoMemory>
    ensures { (types : Table) → IfOk result
        (λ v. value_in types v ≡ c.addressed (term_in types term)) }
{
    match term {
        Term::Value(value) => Ok(value),
        Term::Lvalue(constant, ty, place) => {
            let pointer = pointer_to(alloc, constant, ty)?;
            let expr = Expr::Address(Box::new(alloc, place)?);
            Ok(of_variable(pointer, expr))
        }
    }
}
