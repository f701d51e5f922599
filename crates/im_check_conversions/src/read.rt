//! What a term gives: what stands at its place, or of an array a pointer to its first element (C11 6.3.2.1p2, p3).
ghost use Rattle.std.specs.Prelude.{◌≡◌, IfOk};
ghost use Rattle.im_ctype.specs.Table.{Table, structs_of};
ghost use Rattle.im_ctype.specs.Types as t;
ghost use Rattle.im_typed.specs.Program as p;
ghost use Rattle.im_typed.specs.ProgramOf.{access_of, place_of};
ghost use Rattle.im_check_operands.specs.im_rules.Terms as r;
ghost use Rattle.im_types.specs.Shape.{type_of};
ghost use Rattle.im_check_operands.specs.Shape.{value_in, term_in};

use crate::convert::of_variable;
use crate::kinds::kind_in;
use im_check_operands::{Term, Value};
use im_ctype::TypeTable;
use im_num::{NoMemory, beyond_memory};
use im_typed::{Access, Expr, Place};
use im_types::{Type, struct_extent};
use std::alloc::Global;

fn struct_access(table: &TypeTable, number: u32) -> Result<Access, NoMemory>
    ensures { IfOk result
        (λ a. access_of table.now a ≡ r.access_of (structs_of table.now) (t.struct number)) }
{
    let extent = struct_extent(table, number)?;
    match u32::try_from(extent.cells) {
        Ok(cells) => Ok(Access::Struct { number, cells }),
        Err(_) => Err(beyond_memory()),
    }
}

/// What is read or stored at a place of that type: one cell, or each cell of a struct. Want of
/// memory where it has 2^32 cells or more.
pub fn access(table: &TypeTable, ty: &Type) -> Result<Access, NoMemory>
    ensures { IfOk result
        (λ a. access_of table.now a ≡ r.access_of (structs_of table.now) (type_of ty.now)) }
{
    match ty {
        Type::Struct(number) => struct_access(table, *number),
        Type::Void
        | Type::Integer(_)
        | Type::Pointer(_, _)
        | Type::Array(_, _)
        | Type::Unsized(_)
        | Type::Function(_, _) => Ok(Access::Scalar(kind_in(ty))),
    }
}

/// The value that stands at a place.
fn read(alloc: Global, table: &TypeTable, ty: Type, place: Place) -> Result<Value, NoMemory>
    ensures { IfOk result (λ v. value_in table.now v ≡ record {
      type = type_of ty;
      expr = p.Read (r.access_of (structs_of table.now) (type_of ty)) (place_of table.now place);
    }) }
{
    let what = access(table, &ty)?;
    let from = Box::new(alloc, place)?;
    Ok(of_variable(ty, Expr::Read(what, from)))
}

/// The address of an array's first element, by the type of a pointer to it.
fn first_element(alloc: Global, pointer: Type, place: Place) -> Result<Value, NoMemory>
    ensures { (types : Table) → IfOk result (λ v. value_in types v ≡ record {
      type = type_of pointer;
      expr = p.Address (place_of types place);
    }) }
{
    let array = Box::new(alloc, place)?;
    Ok(of_variable(pointer, Expr::Address(array)))
}

/// What an lvalue gives.
fn lvalue_value(
    alloc: Global,
    table: &TypeTable,
    constant: bool,
    ty: Type,
    place: Place,
) -> Result<Value, NoMemory>
    ensures { IfOk result (λ v. value_in table.now v ≡ r.value_of (structs_of table.now)
        (r.lvalue constant (type_of ty) (place_of table.now place))) }
{
    match &ty {
        Type::Array(_, _) | Type::Unsized(_) => {
            first_element(alloc, ty.into_pointer(constant), place)
        }
        Type::Void
        | Type::Integer(_)
        | Type::Pointer(_, _)
        | Type::Struct(_)
        | Type::Function(_, _) => read(alloc, table, ty, place),
    }
}

/// The term as a value.
pub fn value_of(alloc: Global, table: &TypeTable, term: Term) -> Result<Value, NoMemory>
    ensures { IfOk result (λ v. value_in table.now v
        ≡ r.value_of (structs_of table.now) (term_in table.now term)) }
{
    match term {
        Term::Value(value) => Ok(value),
        Term::Lvalue(constant, ty, place) => lvalue_value(alloc, table, constant, ty, place),
    }
}

/// The type of a term, an array as it is.
pub fn type_in(term: &Term) -> &Type
    ensures { (types : Table) → type_of result.now ≡ r.type_in (term_in types term.now) }
{
    match term {
        Term::Value(value) => &value.ty,
        Term::Lvalue(_, ty, _) => ty,
    }
}
