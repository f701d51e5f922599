//! Which structs have no `const` among their members, nor among those of structs within them.
ghost use Rattle.std.specs.Prelude.{◌≡◌, ◌&&◌, not, length, slice_index_or, true};
ghost use Rattle.im_ctype.specs.Kept.{AreMembersIn};
ghost use Rattle.im_ctype.specs.Table.{IsIn, members_in, structs_of, type_at, types_of};
ghost use Rattle.im_ctype.specs.Types.{members_of};
ghost use Rattle.im_check_constancy.specs.im_rules.Rules as u;
ghost use Rattle.im_types.specs.Shape.{type_of};

use im_ctype::{Member, TypeId, TypeNode, TypeTable};
use im_types::Type;

fn is_free_at(free: &[bool], number: u32) -> bool
    ensures { result ≡ slice_index_or free.now number true }
{
    match free.get(number as usize) {
        Some(is_free) => *is_free,
        None => true,
    }
}

/// Whether a type has no `const` in its members, where the structs without are told by number.
pub fn is_free(free: &[bool], ty: &Type) -> bool
    ensures { result ≡ u.free_in free.now (type_of ty.now) }
{
    match ty {
        Type::Array(element, _) => is_free(free, element),
        Type::Unsized(element) => is_free(free, element),
        Type::Struct(number) => is_free_at(free, *number),
        Type::Void | Type::Integer(_) | Type::Pointer(_, _) | Type::Function(_, _) => true,
    }
}

fn is_free_type(free: &[bool], table: &TypeTable, ty: TypeId) -> bool
    requires { IsIn table.now ty }
    ensures { result ≡ u.free_in free.now (type_at table.now ty) }
{
    match table.node(ty) {
        TypeNode::Array { element, .. } => is_free_type(free, table, element),
        TypeNode::Struct(number) => is_free_at(free, number),
        TypeNode::Void | TypeNode::Integer(_) | TypeNode::Pointer { .. } => true,
    }
}

fn is_member_free(free: &[bool], table: &TypeTable, member: &Member) -> bool
    requires { IsIn table.now member.now.ty }
    ensures { result ≡ (not member.now.constant
        && u.free_in free.now (type_at table.now member.now.ty)) }
{
    !member.constant && is_free_type(free, table, member.ty)
}

fn are_free(free: &[bool], table: &TypeTable, members: &[Member]) -> bool
    requires { AreMembersIn (length table.now.nodes) members.now }
    ensures { result ≡ u.members_free free.now (members_in (types_of table.now) members.now) }
{
    for member in members {
        if !is_member_free(free, table, member) {
            return false;
        }
    }
    true
}

/// Whether a struct is free of `const`, where the structs before it are told.
pub fn is_struct_free(free: &[bool], table: &TypeTable, number: u32) -> bool
    ensures { result ≡ u.members_free free.now (members_of (structs_of table.now) number) }
{
    let members = table.members(number);
    are_free(free, table, members)
}
