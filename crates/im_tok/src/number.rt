ghost use Rattle.std.specs.Prelude.{◌≡◌, ℕ, ◌≤◌, ◌<◌, ◌^◌, length, MatchOption, Option, SomeIff};
ghost use Rattle.std.specs.Prelude.{slice_index, find, nat_le};
ghost use Rattle.im_tok.specs.Numbers.{radix_of, prefix_length, Begins, IsSuffix, greatest};
ghost use Rattle.im_tok.specs.Numbers.{candidates, IsNumeral};
ghost use Rattle.im_tok.specs.declared.number.Base.{Base};
ghost use Rattle.im_tok.specs.declared.number.Suffix.{Suffix};
ghost use Rattle.im_tok.specs.declared.number.Number.{Number};

use crate::digits::{digits_end, digits_value};

/// What the digits of an integer constant are written in (C11 6.4.4.1).
#[derive(Clone, Copy, PartialEq, Eq, Debug)]
pub enum Base {
    Decimal,
    Octal,
    Hexadecimal,
}

/// What stands behind the digits of an integer constant: `u`, `l`, or both.
#[derive(Clone, Copy, PartialEq, Eq, Debug)]
pub enum Suffix {
    Absent,
    U,
    L,
    Ul,
}

/// The type of an integer constant. All of these have 32 bits.
#[derive(Clone, Copy, PartialEq, Eq, Debug)]
pub enum NumberType {
    Int,
    UnsignedInt,
    Long,
    UnsignedLong,
}

/// The value and the type of an integer constant.
#[derive(Clone, Copy, PartialEq, Eq, Debug)]
pub struct Number {
    pub value: u32,
    pub number_type: NumberType,
}

impl Base {
    fn radix(self) -> u32
        ensures { result ≡ radix_of self }
    {
        match self {
            Base::Decimal => 10,
            Base::Octal => 8,
            Base::Hexadecimal => 16,
        }
    }

    /// The bytes before the digits.
    fn prefix_length(self) -> usize
        ensures { result ≡ prefix_length self }
    {
        match self {
            Base::Decimal | Base::Octal => 0,
            Base::Hexadecimal => 2,
        }
    }
}

/// The base that a constant begins as.
fn base_of(text: &[u8]) -> Option<Base>
    ensures { MatchOption result
        ((base : Base) → Begins base text.now → ⊥)
        (λ base. Begins base text.now) }
{
    match text {
        [b'0', b'x' | b'X', ..] => Some(Base::Hexadecimal),
        [b'0', ..] => Some(Base::Octal),
        [b'1'..=b'9', ..] => Some(Base::Decimal),
        _ => None,
    }
}

/// The suffix that the text is.
fn suffix_of(text: &[u8]) -> Option<Suffix>
    ensures { MatchOption result
        ((suffix : Suffix) → IsSuffix suffix text.now → ⊥)
        (λ suffix. IsSuffix suffix text.now) }
{
    match text {
        [] => Some(Suffix::Absent),
        [b'u' | b'U'] => Some(Suffix::U),
        [b'l' | b'L'] => Some(Suffix::L),
        [b'u' | b'U', b'l' | b'L'] | [b'l' | b'L', b'u' | b'U'] => Some(Suffix::Ul),
        _ => None,
    }
}

/// The first type of those that a constant may have that holds its value.
fn type_of(base: Base, suffix: Suffix, value: u32) -> Option<NumberType>
    ensures { result ≡ find (λ t. nat_le value (greatest t)) (candidates base suffix) }
{
    let fits_signed = value <= 0x7fff_ffff;
    match (suffix, base) {
        (Suffix::U, _) => Some(NumberType::UnsignedInt),
        (Suffix::Ul, _) => Some(NumberType::UnsignedLong),
        (Suffix::Absent, _) if fits_signed => Some(NumberType::Int),
        (Suffix::L, _) if fits_signed => Some(NumberType::Long),
        (_, Base::Decimal) => None,
        (Suffix::Absent, _) => Some(NumberType::UnsignedInt),
        (Suffix::L, _) => Some(NumberType::UnsignedLong),
    }
}

/// The value and the type of the integer constant that the text is. There is none where the text
/// is of another form, and where no type that it may have holds its value (C11 6.4.4.1).
pub fn number_of(text: &[u8]) -> Option<Number>
    ensures { MatchOption result
        ((number : Number) → IsNumeral text.now number → ⊥)
        (λ number. IsNumeral text.now number) }
{
    let base = base_of(text)?;
    let start = base.prefix_length();
    if text.len() <= start {
        return None;
    }
    let end = digits_end(text, start, text.len(), base.radix());
    if end == start {
        return None;
    }
    let suffix = suffix_of(&text[end..])?;
    let value = digits_value(&text[start..end], base.radix())?;
    let number_type = type_of(base, suffix, value)?;
    Some(Number { value, number_type })
}
