ghost use Rattle.std.specs.Prelude.{◌≡◌};
ghost use Rattle.im_num.specs.Kinds.{kind_size};
ghost use Rattle.im_ctype.specs.Types.{kind_of, signed_of, traits, unsigned_of};

use im_num::Kind;

/// The integer types (C11 6.2.5). `Char`, `SignedChar` and `UnsignedChar` are three distinct
/// types, and `Int` and `Long` are distinct though they have the same values.
#[derive(Clone, Copy, PartialEq, Eq, Hash, Debug)]
pub enum Integer {
    Char,
    SignedChar,
    UnsignedChar,
    Short,
    UnsignedShort,
    Int,
    UnsignedInt,
    Long,
    UnsignedLong,
}

/// What the conversions between arithmetic types ask of an integer type (C11 6.3.1).
#[derive(Clone, Copy)]
pub struct Traits {
    /// The conversion rank (C11 6.3.1.1p1), from 1 for the character types on.
    pub rank: u32,
    /// The width, with the sign's bit.
    pub bits: u32,
    pub is_signed: bool,
}

fn signed(rank: u32, bits: u32) -> Traits
    ensures { result ≡ signed_of rank bits }
{
    Traits {
        rank,
        bits,
        is_signed: true,
    }
}

fn unsigned(rank: u32, bits: u32) -> Traits
    ensures { result ≡ unsigned_of rank bits }
{
    Traits {
        rank,
        bits,
        is_signed: false,
    }
}

impl Integer {
    /// Its rank, width and sign.
    pub fn traits(self) -> Traits
        ensures { result ≡ traits self }
    {
        match self {
            Integer::Char | Integer::UnsignedChar => unsigned(1, 8),
            Integer::SignedChar => signed(1, 8),
            Integer::Short => signed(2, 16),
            Integer::UnsignedShort => unsigned(2, 16),
            Integer::Int => signed(3, 32),
            Integer::UnsignedInt => unsigned(3, 32),
            Integer::Long => signed(4, 32),
            Integer::UnsignedLong => unsigned(4, 32),
        }
    }

    /// The kind of a cell of this type. A plain `char` is unsigned.
    pub fn kind(self) -> Kind
        ensures { result ≡ kind_of self }
    {
        match self {
            Integer::Char | Integer::UnsignedChar => Kind::U8,
            Integer::SignedChar => Kind::I8,
            Integer::Short => Kind::I16,
            Integer::UnsignedShort => Kind::U16,
            Integer::Int | Integer::Long => Kind::I32,
            Integer::UnsignedInt | Integer::UnsignedLong => Kind::U32,
        }
    }
}

/// The bytes of a cell of that kind; its alignment too.
pub fn bytes_of_kind(kind: Kind) -> u64
    ensures { result ≡ kind_size kind }
{
    match kind {
        Kind::I8 | Kind::U8 => 1,
        Kind::I16 | Kind::U16 => 2,
        Kind::I32 | Kind::U32 | Kind::Ptr => 4,
    }
}
