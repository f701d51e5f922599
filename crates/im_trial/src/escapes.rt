ghost use Rattle.std.specs.Prelude.{◌≡◌, ℕ, ◌<◌, ◌∷◌, ◌++◌, List, None, Some, IfErr, IfOk, IfSome};
ghost use Rattle.std.specs.Prelude.{OnOk, MatchOption, MatchResult, string_bytes};
ghost use Rattle.std.specs.Option.{option_to_list};
ghost use Rattle.im_trial.specs.Escapes as escapes;
ghost use Rattle.im_trial.specs.Escapes.{left_in, put_ended, quoted as quoted_of};
ghost use Rattle.im_trial.specs.Finding.{Refuses};
ghost use Rattle.im_trial.specs.Numbers.{byte_digits, word_digits};
ghost use Rattle.std.specs.Char.{digit_char};

use crate::stop::Stop;
use std::alloc::{AllocError, Global};

/// What stands before the next byte of an escaped text.
#[derive(Clone, Copy)]
enum Within {
    Nothing,
    /// A backslash.
    Escape,
    /// `\x`.
    High,
    /// `\x` and this digit.
    Low(u8),
}

fn digit_of(byte: u8) -> Option<u8>
    ensures digit { result ≡ escapes.digit_of byte }
    ensures below { IfSome result (λ digit. digit < 16) }
{
    match byte {
        b'0'..=b'9' => Some(byte - b'0'),
        b'a'..=b'f' => Some(byte - b'a' + 10),
        _ => None,
    }
}

// The byte that two hexadecimal digits stand for.
fn pair_of(high: u8, low: u8) -> Option<u8>
    ensures { result ≡ escapes.pair (escapes.digit_of high) (escapes.digit_of low) }
{
    match (digit_of(high), digit_of(low)) {
        (Some(high), Some(low)) => Some(16 * high + low),
        _ => None,
    }
}

/// What a byte behind a backslash stands for, but for `x`.
fn simple(byte: u8) -> Option<u8>
    ensures { result ≡ escapes.simple byte }
{
    match byte {
        b'n' => Some(b'\n'),
        b't' => Some(b'\t'),
        b'r' => Some(b'\r'),
        b'\\' => Some(b'\\'),
        b'"' => Some(b'"'),
        _ => None,
    }
}

/// What stands before the byte behind this one, and the byte that ends here.
fn step(within: Within, byte: u8) -> Option<(Within, Option<u8>)>
    ensures { (rest : List ℕ) → MatchOption result (left_in within (byte ∷ rest) ≡ None)
        (λ next. left_in within (byte ∷ rest) ≡ put_ended next.1 (left_in next.0 rest)) }
{
    match within {
        Within::Nothing if byte == b'\\' => Some((Within::Escape, None)),
        Within::Nothing => Some((Within::Nothing, Some(byte))),
        Within::Escape if byte == b'x' => Some((Within::High, None)),
        Within::Escape => Some((Within::Nothing, Some(simple(byte)?))),
        Within::High => Some((Within::Low(byte), None)),
        Within::Low(high) => Some((Within::Nothing, Some(pair_of(high, byte)?))),
    }
}

// Puts the byte that ended, if one did, behind the others.
fn put_ended(bytes: &mut Vec<u8>, ended: Option<u8>) -> Result<(), Stop>
    ensures put { OnOk result (bytes.new.items ≡ bytes.old.items ++ option_to_list ended) }
    ensures stop { IfErr result (λ stop. stop ≡ Stop.Memory) }
{
    if let Some(byte) = ended {
        bytes.push(byte)?;
    }
    Ok(())
}

/// The bytes of a text in which `\n`, `\t`, `\r`, `\\`, `\"` and `\xHH` stand for one each.
pub(crate) fn unescaped(alloc: Global, text: &str) -> Result<Vec<u8>, Stop>
    ensures { MatchResult result (λ bytes. escapes.unescaped text.now ≡ Some bytes.items)
        (Refuses (escapes.unescaped text.now)) }
{
    let mut bytes = Vec::new(alloc);
    let mut within = Within::Nothing;
    for byte in text.as_bytes() {
        let Some((next, ended)) = step(within, *byte) else {
            return Err(Stop::Row);
        };
        within = next;
        put_ended(&mut bytes, ended)?;
    }
    match within {
        Within::Nothing => Ok(bytes),
        Within::Escape | Within::High | Within::Low(_) => Err(Stop::Row),
    }
}

fn digit(number: u8) -> char
    requires { number < 16 }
    ensures { result ≡ digit_char number }
{
    if number < 10 {
        char::from(b'0' + number)
    } else {
        char::from(b'a' - 10 + number)
    }
}

fn push_digits(text: &mut String, byte: u8) -> Result<(), AllocError>
    ensures { OnOk result (string_bytes text.new ≡ string_bytes text.old ++ byte_digits byte) }
{
    text.push(digit(byte / 16))?;
    text.push(digit(byte % 16))
}

/// A word's eight hexadecimal digits, behind a blank.
pub(crate) fn word_text(alloc: Global, word: u32) -> Result<String, AllocError>
    ensures { IfOk result (λ text. string_bytes text ≡ 32 ∷ word_digits word) }
{
    let mut text = String::from_str(alloc, " ")?;
    push_digits(&mut text, (word / 0x100_0000) as u8)?;
    push_digits(&mut text, (word / 0x1_0000 % 256) as u8)?;
    push_digits(&mut text, (word / 0x100 % 256) as u8)?;
    push_digits(&mut text, (word % 256) as u8)?;
    Ok(text)
}

fn push_escaped(text: &mut String, byte: u8) -> Result<(), AllocError>
    ensures { OnOk result (string_bytes text.new ≡ string_bytes text.old ++ escapes.escape byte) }
{
    match byte {
        b'\n' => text.push_str("\\n"),
        b'\t' => text.push_str("\\t"),
        b'\\' => text.push_str("\\\\"),
        b'"' => text.push_str("\\\""),
        b' '..=b'~' => text.push(char::from(byte)),
        _ => {
            text.push_str("\\x")?;
            push_digits(text, byte)
        }
    }
}

/// Bytes between quotes, with the escapes of a field, behind a blank.
pub(crate) fn quoted(alloc: Global, bytes: &[u8]) -> Result<String, AllocError>
    ensures { IfOk result (λ text. string_bytes text ≡ quoted_of bytes.now) }
{
    let mut text = String::from_str(alloc, " \"")?;
    for byte in bytes {
        push_escaped(&mut text, *byte)?;
    }
    text.push_str("\"")?;
    Ok(text)
}
