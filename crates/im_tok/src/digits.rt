ghost use Rattle.std.specs.Prelude.{◌≡◌, ℕ, ◌≤◌, ◌<◌, ◌^◌, ◌+◌, ◌*◌, length, All, SomeIff};
ghost use Rattle.std.specs.Prelude.{slice_index};
ghost use Rattle.std.specs.Char.{digit_value};
ghost use Rattle.im_tok.specs.Digits.{IsDigitOf, DigitsEnd, digits_value};

/// Where the digits that begin at `start` end, none looked at from `limit` on.
pub fn digits_end(text: &[u8], start: usize, limit: usize, radix: u32) -> usize
    requires ordered { start ≤ limit }
    requires within { limit ≤ length text.now }
    requires lower_bound { 2 ≤ radix }
    requires upper_bound { radix ≤ 36 }
    ensures { DigitsEnd radix text.now start limit result }
{
    let mut end = start;
    while end < limit && char::from(text[end]).is_digit(radix) {
        end += 1;
    }
    end
}

/// The number that the digits spell, where it is below 2^32.
pub fn digits_value(digits: &[u8], radix: u32) -> Option<u32>
    requires lower_bound { 2 ≤ radix }
    requires upper_bound { radix ≤ 36 }
    requires digits { All (IsDigitOf radix) digits.now }
    ensures { SomeIff result (digits_value radix digits.now < 2 ^ 32)
        (digits_value radix digits.now) }
{
    let mut value: u32 = 0;
    for digit in digits {
        value = with_digit(value, *digit, radix)?;
    }
    Some(value)
}

/// The number with one digit more.
fn with_digit(value: u32, digit: u8, radix: u32) -> Option<u32>
    requires lower_bound { 2 ≤ radix }
    requires upper_bound { radix ≤ 36 }
    requires digit { IsDigitOf radix digit }
    ensures { SomeIff result (radix * value + digit_value digit < 2 ^ 32)
        (radix * value + digit_value digit) }
{
    let digit = char::from(digit).to_digit(radix)?;
    radix.checked_mul(value)?.checked_add(digit)
}
