//! The rule on shapes: whether an initialiser has that of its object (C11 6.7.9).
ghost use Rattle.std.specs.Prelude.{◌≡◌, nat_le, None, Some, IfErr};
ghost use Rattle.im_ctree.specs.Shape.{initializer_of};
ghost use Rattle.im_ctype.specs.Table.{structs_of};
ghost use Rattle.im_ctype.specs.Types as t;
ghost use Rattle.im_check_stop.specs.im_rules.Rules as u;
ghost use Rattle.im_check_stop.specs.declared.stop.Stop.TheVariants.{Memory};
ghost use Rattle.im_ctree_parts.specs.Lists.{initializers_from};
ghost use Rattle.im_types.specs.Shape.{type_of};
ghost use Rattle.im_check_shapes.specs.Shape.{IsShaped};

use crate::form::shape_of;
use crate::parts::{one_expression, token_of};
use crate::shape::Shape;
use crate::strings::{is_open_string, is_string_within};
use im_check_stop::{Stop, refused};
use im_ctree::Initializer;
use im_ctype::TypeTable;
use im_types::Type;

fn is_one_expression(i: &Initializer) -> bool
    ensures { result ≡ u.is_one_expression (initializer_of i.now) }
{
    match one_expression(i) {
        Some(_) => true,
        None => false,
    }
}

fn is_at_most(most: u64, items: &[Initializer]) -> bool
    ensures { result ≡ nat_le (u.initializer_count (initializers_from items.now)) most }
{
    items.len() as u64 <= most
}

/// A braced list of at most so many.
fn is_list_within(most: u64, i: &Initializer) -> bool
    ensures { result ≡ u.is_list_for (Some most) (initializer_of i.now) }
{
    match i {
        Initializer::Value(_) => false,
        Initializer::List(_, items) => is_at_most(most, items),
    }
}

fn is_list(i: &Initializer) -> bool
    ensures { result ≡ u.is_list_for None (initializer_of i.now) }
{
    match i {
        Initializer::Value(_) => false,
        Initializer::List(_, _) => true,
    }
}

/// An expression, or a list of at most as many as the struct has members.
fn is_for_struct(table: &TypeTable, number: u32, i: &Initializer) -> bool
    ensures { result ≡ u.rule_16 (structs_of table.now) (t.struct number) (initializer_of i.now) }
{
    match i {
        Initializer::Value(_) => true,
        Initializer::List(_, items) => {
            let members = table.members(number);
            is_at_most(members.len() as u64, items)
        }
    }
}

/// Whether the initialiser has the shape of an object of that type.
pub fn has_shape(table: &TypeTable, ty: &Type, i: &Initializer) -> bool
    ensures { result ≡ u.rule_16 (structs_of table.now) (type_of ty.now) (initializer_of i.now) }
{
    match ty {
        Type::Integer(_) | Type::Pointer(_, _) => is_one_expression(i),
        Type::Array(element, count) => {
            if is_open_string(element, i) {
                is_string_within(element, *count, i)
            } else {
                is_list_within(*count, i)
            }
        }
        Type::Unsized(element) => is_open_string(element, i) || is_list(i),
        Type::Struct(number) => is_for_struct(table, *number, i),
        Type::Void | Type::Function(_, _) => false,
    }
}

/// Which form the initialiser of an object of that type has; what has not its shape breaks rule 16
/// at its first token.
pub fn shaped<'a>(table: &TypeTable, ty: &'a Type, i: &'a Initializer) -> Result<Shape<'a>, Stop>
    ensures shaped { IsShaped (structs_of table.now) (type_of ty.now) (initializer_of i.now) result }
    ensures spared { IfErr result (λ stop. stop ≡ Memory → ⊥) }
{
    if !has_shape(table, ty, i) {
        return Err(refused(16, token_of(i)));
    }
    Ok(shape_of(ty, i))
}
