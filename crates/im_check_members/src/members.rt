//! `.` and `->` (C11 6.5.2.3).
ghost use Rattle.std.specs.Prelude.{◌≡◌, ◌||◌, IfOk};
ghost use Rattle.im_ctype.specs.Table.{structs_of, type_at, IsIn};
ghost use Rattle.im_ctype.specs.Types as t;
ghost use Rattle.im_check_operands.specs.Answers.{IsMade};
ghost use Rattle.im_check_operands.specs.Shape.{term_in, value_in};
ghost use Rattle.im_check_conversions.specs.im_rules.Conversions as c;
ghost use Rattle.im_check_conversions.specs.im_rules.Demands as d;
ghost use Rattle.im_check_conversions.specs.im_rules.Terms as r;
ghost use Rattle.im_typed.specs.Program as p;
ghost use Rattle.im_typed.specs.ProgramOf.{expr_of, place_of};
ghost use Rattle.im_types.specs.Shape.{type_of};

use crate::found::{Found, member_of};
use im_check_conversions::{access, of_variable, value_of};
use im_check_operands::{Term, Value};
use im_check_stop::{Stop, refused};
use im_ctype::TypeTable;
use im_num::{NoMemory, beyond_memory};
use im_typed::{Expr, Place};
use im_types::{Type, is_array, type_from};
use std::alloc::Global;

/// A member of an object, by its place.
fn member_at(
    alloc: Global,
    table: &TypeTable,
    constant: bool,
    whole: Place,
    found: Found,
) -> Result<Term, NoMemory>
    requires { IsIn table.now found.ty }
    ensures { IfOk result (λ t. term_in table.now t ≡ r.lvalue (constant || found.constant)
        (type_at table.now found.ty) (p.Member (place_of table.now whole) found.place.offset)) }
{
    let Ok(offset) = u32::try_from(found.place.offset) else {
        return Err(beyond_memory());
    };
    let ty = type_from(alloc, table, found.ty)?;
    let place = Place::Member(Box::new(alloc, whole)?, offset);
    Ok(Term::Lvalue(constant || found.constant, ty, place))
}

/// A member of a value that stands at no place, by its first cell.
fn part_of(
    alloc: Global,
    table: &TypeTable,
    whole: Expr,
    ty: Type,
    first_cell: u64,
) -> Result<Term, NoMemory>
    ensures { IfOk result (λ t. term_in table.now t ≡ r.value (record {
      type = type_of ty;
      expr = p.Part first_cell (r.access_of (structs_of table.now) (type_of ty))
          (expr_of table.now whole);
    })) }
{
    let Ok(from) = u32::try_from(first_cell) else {
        return Err(beyond_memory());
    };
    let access = access(table, &ty)?;
    let whole = Box::new(alloc, whole)?;
    let expr = Expr::Part {
        from,
        access,
        whole,
    };
    Ok(Term::Value(of_variable(ty, expr)))
}

/// A member of an lvalue; it is const where the struct or the member is.
fn lvalue_member(
    alloc: Global,
    table: &TypeTable,
    at: u32,
    constant: bool,
    ty: &Type,
    place: Place,
    name: &[u8],
) -> Result<Term, Stop>
    ensures { IsMade table.now
        (d.dot_asks (structs_of table.now)
        (r.lvalue constant (type_of ty.now) (place_of table.now place)) name.now)
        (c.member_at (structs_of table.now) constant (type_of ty.now) (place_of table.now place)
        name.now) at result }
{
    match member_of(table, ty, name) {
        Some(found) => Ok(member_at(alloc, table, constant, place, found)?),
        None => Err(refused(21, at)),
    }
}

/// A member of a value, which is no array.
fn value_member(
    alloc: Global,
    table: &TypeTable,
    at: u32,
    value: Value,
    name: &[u8],
) -> Result<Term, Stop>
    ensures { IsMade table.now
        (d.dot_asks (structs_of table.now) (r.value (value_in table.now value)) name.now)
        (r.value (c.part_of (structs_of table.now) (value_in table.now value) name.now)) at result }
{
    match member_of(table, &value.ty, name) {
        Some(found) => {
            let ty = type_from(alloc, table, found.ty)?;
            if is_array(&ty) {
                return Err(refused(21, at));
            }
            let whole = value.expr.tree;
            Ok(part_of(alloc, table, whole, ty, found.place.first_cell)?)
        }
        None => Err(refused(21, at)),
    }
}

/// `x.name` (C11 6.5.2.3p3).
pub fn dotted(alloc: Global, table: &TypeTable, at: u32, x: Term, name: &[u8]) -> Result<Term, Stop>
    ensures { IsMade table.now
        (d.dot_asks (structs_of table.now) (term_in table.now x) name.now)
        (c.dotted (structs_of table.now) (term_in table.now x) name.now) at result }
{
    match x {
        Term::Lvalue(constant, ty, place) => {
            lvalue_member(alloc, table, at, constant, &ty, place, name)
        }
        Term::Value(value) => value_member(alloc, table, at, value, name),
    }
}

/// A member of what a pointer points to.
fn target_member(
    alloc: Global,
    table: &TypeTable,
    at: u32,
    constant: bool,
    target: &Type,
    pointer: Expr,
    name: &[u8],
) -> Result<Term, Stop>
    ensures { IsMade table.now
        (d.arrow_asks (structs_of table.now) (r.value (record {
          type = t.pointer constant (type_of target.now);
          expr = expr_of table.now pointer;
        })) name.now)
        (c.member_at (structs_of table.now) constant (type_of target.now)
        (p.Target (expr_of table.now pointer)) name.now) at result }
{
    match member_of(table, target, name) {
        Some(found) => {
            let place = Place::Target(Box::new(alloc, pointer)?);
            Ok(member_at(alloc, table, constant, place, found)?)
        }
        None => Err(refused(21, at)),
    }
}

fn pointer_member(
    alloc: Global,
    table: &TypeTable,
    at: u32,
    value: Value,
    name: &[u8],
) -> Result<Term, Stop>
    ensures { IsMade table.now
        (d.arrow_asks (structs_of table.now) (r.value (value_in table.now value)) name.now)
        (c.arrowed (structs_of table.now) (value_in table.now value) name.now) at result }
{
    let pointer = value.expr.tree;
    match &value.ty {
        Type::Pointer(constant, target) => {
            target_member(alloc, table, at, *constant, target, pointer, name)
        }
        // no value is an array (C11 6.3.2.1p3)
        Type::Array(_, _) | Type::Unsized(_) => Err(Stop::from(beyond_memory())),
        Type::Void | Type::Integer(_) | Type::Struct(_) | Type::Function(_, _) => {
            Err(refused(21, at))
        }
    }
}

/// `x->name` (C11 6.5.2.3p4).
pub fn arrowed(
    alloc: Global,
    table: &TypeTable,
    at: u32,
    x: Term,
    name: &[u8],
) -> Result<Term, Stop>
    ensures { IsMade table.now
        (d.arrow_asks (structs_of table.now) (term_in table.now x) name.now)
        (c.arrowed (structs_of table.now)
        (r.value_of (structs_of table.now) (term_in table.now x)) name.now) at result }
{
    let pointer = value_of(alloc, table, x)?;
    pointer_member(alloc, table, at, pointer, name)
}
