ghost use Rattle.std.specs.Prelude.{◌≡◌};
ghost use Rattle.im_cmd_check.specs.Reading.{number as number_of, number_where_some};

fn read_digits(digits: &[u8]) -> Option<u32>
    ensures { result ≡ number_of digits.now }
{
    let mut value: u32 = 0;
    for byte in digits {
        if !byte.is_ascii_digit() {
            return None;
        }
        value = value.checked_mul(10)?.checked_add(u32::from(*byte - b'0'))?;
    }
    Some(value)
}

/// The number of decimal digits, where there are some and a word holds it.
pub fn read_number(digits: &[u8]) -> Option<u32>
    ensures { result ≡ number_where_some digits.now }
{
    if digits.is_empty() {
        None
    } else {
        read_digits(digits)
    }
}
