//! Types as integers: kinds, promotion and common types (C11 6.3.1).
ghost use Rattle.std.specs.Prelude.{◌≡◌, false, MatchOption};
ghost use Rattle.im_ctype.specs.Types as t;
ghost use Rattle.im_check_operands.specs.im_rules.Conversions as c;
ghost use Rattle.im_check_operands.specs.im_rules.Terms as r;
ghost use Rattle.im_store.specs.Objects as o;
ghost use Rattle.im_types.specs.Shape.{type_of};

use im_ctype::{Integer, Traits};
use im_num::Kind;
use im_types::{Type, same_bool};

/// The integer type that a type is.
pub fn integer_in(ty: &Type) -> Option<Integer>
    ensures { MatchOption result (t.is_integer (type_of ty.now) ≡ false)
        (λ i. type_of ty.now ≡ t.integer i) }
{
    match ty {
        Type::Integer(i) => Some(*i),
        Type::Void
        | Type::Pointer(_, _)
        | Type::Array(_, _)
        | Type::Unsized(_)
        | Type::Struct(_)
        | Type::Function(_, _) => None,
    }
}

/// The integer type of a value; int where it is none.
pub fn integer_of(ty: &Type) -> Integer
    ensures { result ≡ c.integer_of (type_of ty.now) }
{
    match ty {
        Type::Integer(i) => *i,
        Type::Void
        | Type::Pointer(_, _)
        | Type::Array(_, _)
        | Type::Unsized(_)
        | Type::Struct(_)
        | Type::Function(_, _) => Integer::Int,
    }
}

/// The kind of a cell of a scalar; that of a pointer of what is no integer.
pub fn kind_in(ty: &Type) -> Kind
    ensures { result ≡ r.kind_in (type_of ty.now) }
{
    match ty {
        Type::Integer(i) => i.kind(),
        Type::Void
        | Type::Pointer(_, _)
        | Type::Array(_, _)
        | Type::Unsized(_)
        | Type::Struct(_)
        | Type::Function(_, _) => Kind::Ptr,
    }
}

/// Whether a type has all values of another.
fn has_all_of(own: Traits, other: Traits) -> bool
    ensures { result ≡ c.has_all_of own other }
{
    if other.is_signed {
        own.is_signed && other.bits <= own.bits
    } else if own.is_signed {
        other.bits < own.bits
    } else {
        other.bits <= own.bits
    }
}

/// Integer promotion (C11 6.3.1.1p2).
pub fn promoted(ty: Integer) -> Integer
    ensures { result ≡ c.promoted ty }
{
    let (int, own) = (Integer::Int.traits(), ty.traits());
    if int.rank < own.rank {
        ty
    } else if has_all_of(int, own) {
        Integer::Int
    } else {
        Integer::UnsignedInt
    }
}

/// The unsigned type that corresponds to a type (C11 6.2.5p6).
fn to_unsigned(ty: Integer) -> Integer
    ensures { result ≡ c.to_unsigned ty }
{
    match ty {
        Integer::Char | Integer::SignedChar | Integer::UnsignedChar => Integer::UnsignedChar,
        Integer::Short | Integer::UnsignedShort => Integer::UnsignedShort,
        Integer::Int | Integer::UnsignedInt => Integer::UnsignedInt,
        Integer::Long | Integer::UnsignedLong => Integer::UnsignedLong,
    }
}

/// The common type of a signed and an unsigned one.
fn mixed(signed: Integer, unsigned: Integer) -> Integer
    ensures { result ≡ c.mixed signed unsigned }
{
    let (own, other) = (signed.traits(), unsigned.traits());
    if own.rank <= other.rank {
        unsigned
    } else if has_all_of(own, other) {
        signed
    } else {
        to_unsigned(signed)
    }
}

/// The common type of two promoted ones.
fn usual(left: Integer, right: Integer) -> Integer
    ensures { result ≡ c.usual left right }
{
    let (own, other) = (left.traits(), right.traits());
    if same_bool(own.is_signed, other.is_signed) {
        if own.rank < other.rank { right } else { left }
    } else if own.is_signed {
        mixed(left, right)
    } else {
        mixed(right, left)
    }
}

/// The common type of two operands (C11 6.3.1.8).
pub fn common(left: &Type, right: &Type) -> Integer
    ensures { result ≡ c.common (type_of left.now) (type_of right.now) }
{
    usual(promoted(integer_of(left)), promoted(integer_of(right)))
}

fn kind_number(kind: Kind) -> u8
    ensures { result ≡ o.kind_number kind }
{
    match kind {
        Kind::I8 => 0,
        Kind::U8 => 1,
        Kind::I16 => 2,
        Kind::U16 => 3,
        Kind::I32 => 4,
        Kind::U32 => 5,
        Kind::Ptr => 6,
    }
}

pub fn same_kind(left: Kind, right: Kind) -> bool
    ensures { result ≡ o.same_kind left right }
{
    kind_number(left) == kind_number(right)
}
