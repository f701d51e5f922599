//! The members of structs, by their names.
ghost use Rattle.std.specs.Prelude.{◌≡◌, ◌↔◌, false, IsTrue, MatchOption};
ghost use Rattle.im_ctype.specs.Table.{structs_of};
ghost use Rattle.im_ctype.specs.Types as t;
ghost use Rattle.im_check_members.specs.Found.{IsFound};
ghost use Rattle.im_check_conversions.specs.im_rules.TypeTests as q;
ghost use Rattle.im_types.specs.Shape.{type_of};

use im_ctype::{Member, MemberPlace, TypeId, TypeTable};
use im_types::Type;

/// A member of a struct: whether it is const itself, its type and its place.
#[derive(Clone, Copy)]
pub struct Found {
    pub constant: bool,
    pub ty: TypeId,
    pub place: MemberPlace,
}

fn is_equal(first: &[u8], second: &[u8]) -> bool
    ensures { IsTrue result ↔ first.now ≡ second.now }
{
    first == second
}

fn same_name(first: &[u8], second: &[u8]) -> bool
    ensures { result ≡ q.same_name first.now second.now }
{
    is_equal(first, second)
}

fn has_name(member: &Member, name: &[u8]) -> bool
    ensures { result ≡ q.same_name member.now.name.items name.now }
{
    same_name(&member.name, name)
}

/// The member of that name of the struct of that number.
fn member_in(table: &TypeTable, number: u32, name: &[u8]) -> Option<Found>
    ensures { MatchOption result
        (q.has_member name.now (t.members_of (structs_of table.now) number) ≡ false)
        (λ f. IsFound table.now (t.struct number) name.now f) }
{
    let members = table.members(number);
    let places = table.places(number);
    for (i, member) in members.iter().enumerate() {
        if has_name(member, name) {
            return Some(Found {
                constant: member.constant,
                ty: member.ty,
                place: places[i],
            });
        }
    }
    None
}

/// The member of that name of a struct type; none of another type.
pub fn member_of(table: &TypeTable, ty: &Type, name: &[u8]) -> Option<Found>
    ensures { MatchOption result
        (q.has_member name.now (q.members_in (structs_of table.now) (type_of ty.now)) ≡ false)
        (λ f. IsFound table.now (type_of ty.now) name.now f) }
{
    match ty {
        Type::Struct(number) => member_in(table, *number, name),
        Type::Void
        | Type::Integer(_)
        | Type::Pointer(_, _)
        | Type::Array(_, _)
        | Type::Unsized(_)
        | Type::Function(_, _) => None,
    }
}
