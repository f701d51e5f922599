ghost use Rattle.std.specs.Prelude.{◌≡◌, ◌<◌, false};
ghost use Rattle.std.specs.Fmt.{digit_glyph};
ghost use Rattle.im_cmd_lines.specs.Numerals.{hex_digit, hex_word};

fn digit_text(digit: u32) -> u8
    requires { digit < 16 }
    ensures { result ≡ digit_glyph false digit }
{
    if digit < 10 {
        48 + digit as u8
    } else {
        87 + digit as u8
    }
}

/// The eight digits of a word in hexadecimal, the highest first.
pub fn hex_text(word: u32) -> [u8; 8]
    ensures { result ≡ hex_word word }
{
    [
        digit_text((word >> 28) % 16),
        digit_text((word >> 24) % 16),
        digit_text((word >> 20) % 16),
        digit_text((word >> 16) % 16),
        digit_text((word >> 12) % 16),
        digit_text((word >> 8) % 16),
        digit_text((word >> 4) % 16),
        digit_text(word % 16),
    ]
}
