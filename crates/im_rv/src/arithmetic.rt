ghost use Rattle.std.specs.Prelude.{◌≡◌, ◌*◌, ◌/◌, ◌^◌, ◌*ℤ◌, pos};
ghost use Rattle.im_rv.specs.Steps.{signed, shift_left, shift_right, shift_right_signed};
ghost use Rattle.im_rv.specs.Steps.{upper_word, less_signed, as_number, overflows, quotient};
ghost use Rattle.im_rv.specs.Steps.{quotient_unsigned, remainder, remainder_unsigned};

const LEAST: u32 = 0x8000_0000;

const MINUS_ONE: u32 = 0xFFFF_FFFF;

pub(crate) fn is_less_signed(a: u32, b: u32) -> bool
    ensures { result ≡ less_signed a b }
{
    a.cast_signed() < b.cast_signed()
}

pub(crate) fn flag(holds: bool) -> u32
    ensures { result ≡ as_number holds }
{
    if holds { 1 } else { 0 }
}

pub(crate) fn shifted_left(a: u32, count: u32) -> u32
    ensures { result ≡ shift_left a count }
{
    a << (count % 32)
}

pub(crate) fn shifted_right(a: u32, count: u32) -> u32
    ensures { result ≡ shift_right a count }
{
    a >> (count % 32)
}

pub(crate) fn shifted_right_signed(a: u32, count: u32) -> u32
    ensures { result ≡ shift_right_signed a count }
{
    (a.cast_signed() >> (count % 32)).cast_unsigned()
}

fn upper_half(product: i64) -> u32
    ensures { result ≡ upper_word product }
{
    (product.cast_unsigned() >> 32) as u32
}

fn upper_of_product(a: i32, b: i32) -> u32
    ensures { result ≡ upper_word (a *ℤ b) }
{
    upper_half(i64::from(a) * i64::from(b))
}

pub(crate) fn upper_product_signed(a: u32, b: u32) -> u32
    ensures { result ≡ upper_word (signed a *ℤ signed b) }
{
    upper_of_product(a.cast_signed(), b.cast_signed())
}

pub(crate) fn upper_product_mixed(a: u32, b: u32) -> u32
    ensures { result ≡ upper_word (signed a *ℤ pos b) }
{
    upper_half(i64::from(a.cast_signed()) * i64::from(b))
}

pub(crate) fn upper_product(a: u32, b: u32) -> u32
    ensures { result ≡ a * b / 2 ^ 32 }
{
    ((u64::from(a) * u64::from(b)) >> 32) as u32
}

fn is_overflow(a: u32, b: u32) -> bool
    ensures { result ≡ overflows a b }
{
    a == LEAST && b == MINUS_ONE
}

pub(crate) fn divided(a: u32, b: u32) -> u32
    ensures { result ≡ quotient a b }
{
    if b == 0 {
        MINUS_ONE
    } else if is_overflow(a, b) {
        LEAST
    } else {
        (a.cast_signed() / b.cast_signed()).cast_unsigned()
    }
}

pub(crate) fn divided_unsigned(a: u32, b: u32) -> u32
    ensures { result ≡ quotient_unsigned a b }
{
    if b == 0 { MINUS_ONE } else { a / b }
}

pub(crate) fn rest(a: u32, b: u32) -> u32
    ensures { result ≡ remainder a b }
{
    if b == 0 {
        a
    } else if is_overflow(a, b) {
        0
    } else {
        (a.cast_signed() % b.cast_signed()).cast_unsigned()
    }
}

pub(crate) fn rest_unsigned(a: u32, b: u32) -> u32
    ensures { result ≡ remainder_unsigned a b }
{
    if b == 0 { a } else { a % b }
}
