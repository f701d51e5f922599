ghost use Rattle.std.specs.Prelude.{◌≡◌, ◌≤◌, ◌++◌, [], ◌∷◌, OnOk, nat_le, true};
ghost use Rattle.im_tok.specs.Numbers.{greatest};
ghost use Rattle.im_word.specs.Words.{name, keyword, number, character, text, mark};
ghost use Rattle.im_print_relation.specs.Text.{is_plain, byte_text, bytes_text, literal_text};
ghost use Rattle.im_print_relation.specs.Text.{suffix_text};
ghost use Rattle.im_print_parts.specs.Output.{Writes};

use im_num::NoMemory;
use im_tok::{Keyword, Number, NumberType, Punctuator};
use itoa::Buffer;

/// Writes bytes, and a blank behind them.
fn put(out: &mut Vec<u8>, bytes: &[u8]) -> Result<(), NoMemory>
    ensures { OnOk result (out.new.items ≡ out.old.items ++ (bytes.now ++ (32 ∷ []))) }
{
    out.extend_from_slice(bytes)?;
    out.push(b' ')?;
    Ok(())
}

/// Writes a name (C11 6.4.2) and a blank.
pub fn put_name(out: &mut Vec<u8>, bytes: &[u8]) -> Result<(), NoMemory>
    ensures { OnOk result (Writes out.old.items out.new.items (name bytes.now ∷ [])) }
{
    put(out, bytes)?;
    Ok(())
}

/// Writes a keyword (C11 6.4.1) and a blank.
pub fn put_keyword(out: &mut Vec<u8>, word: Keyword) -> Result<(), NoMemory>
    ensures { OnOk result (Writes out.old.items out.new.items (keyword word ∷ [])) }
{
    put(out, word.text())?;
    Ok(())
}

/// Writes a punctuator (C11 6.4.6) and a blank.
pub fn put_mark(out: &mut Vec<u8>, punctuator: Punctuator) -> Result<(), NoMemory>
    ensures { OnOk result (Writes out.old.items out.new.items (mark punctuator ∷ [])) }
{
    put(out, punctuator.text())?;
    Ok(())
}

fn is_plain_byte(byte: u8) -> bool
    ensures { result ≡ is_plain byte }
{
    byte >= 32 && byte < 127 && byte != b'"' && byte != b'\'' && byte != b'\\'
}

/// Writes a byte of a literal (C11 6.4.4.4).
fn put_byte(out: &mut Vec<u8>, byte: u8) -> Result<(), NoMemory>
    ensures { OnOk result (out.new.items ≡ out.old.items ++ byte_text byte) }
{
    if is_plain_byte(byte) {
        out.push(byte)?;
    } else {
        out.push(b'\\')?;
        out.push(b'0' + byte / 64)?;
        out.push(b'0' + byte / 8 % 8)?;
        out.push(b'0' + byte % 8)?;
    }
    Ok(())
}

/// Writes a literal and a blank.
fn put_literal(out: &mut Vec<u8>, quote: u8, bytes: &[u8]) -> Result<(), NoMemory>
    ensures { OnOk result (out.new.items ≡ out.old.items ++ (literal_text quote bytes.now
        ++ (32 ∷ []))) }
{
    out.push(quote)?;
    for byte in bytes {
        put_byte(out, *byte)?;
    }
    out.push(quote)?;
    out.push(b' ')?;
    Ok(())
}

/// Writes a character constant (C11 6.4.4.4) and a blank.
pub fn put_character(out: &mut Vec<u8>, byte: u8) -> Result<(), NoMemory>
    ensures { OnOk result (Writes out.old.items out.new.items (character byte ∷ [])) }
{
    put_literal(out, b'\'', &[byte])?;
    Ok(())
}

/// Writes a string literal (C11 6.4.5) and a blank.
pub fn put_text(out: &mut Vec<u8>, bytes: &[u8]) -> Result<(), NoMemory>
    ensures { OnOk result (Writes out.old.items out.new.items (text bytes.now ∷ [])) }
{
    put_literal(out, b'"', bytes)?;
    Ok(())
}

/// What stands behind the digits of a number of this type (C11 6.4.4.1).
fn suffix_of(number_type: NumberType) -> &'static [u8]
    ensures { result.now ≡ suffix_text number_type }
{
    match number_type {
        NumberType::Int => b"",
        NumberType::UnsignedInt => b"u",
        NumberType::Long => b"l",
        NumberType::UnsignedLong => b"ul",
    }
}

/// Writes an integer constant in decimal, with its type's suffix (C11 6.4.4.1), and a blank.
pub fn put_number(out: &mut Vec<u8>, value: Number) -> Result<(), NoMemory>
    ensures { OnOk result (Writes out.old.items out.new.items (number value ∷ [])) }
{
    let mut digits = Buffer::new();
    out.extend_from_slice(digits.format(value.value).as_bytes())?;
    put(out, suffix_of(value.number_type))?;
    Ok(())
}
