ghost use Rattle.std.specs.Prelude.{◌≡◌, ◌≢◌, ℕ, List, ◌≤◌, ◌<◌, length, IfOk, MatchOption};
ghost use Rattle.std.specs.Prelude.{MatchResult, slice_index};
ghost use Rattle.im_tok.specs.Literals.{IsElement, NoElement, Refused, simple_escape, IsNumeric};
ghost use Rattle.im_tok.specs.Literals.{IsCharacter, IsText};
ghost use Rattle.im_tok.specs.declared.literal.Element.{Element};

use crate::digits::{digits_end, digits_value};
use im_num::NoMemory;
use std::alloc::Global;

/// A character or an escape of a literal (C11 6.4.4.4): its value, and how many bytes it takes.
#[derive(Clone, Copy, PartialEq, Eq, Debug)]
pub struct Element {
    pub value: u8,
    pub length: usize,
}

/// Why no character and no escape stands at a place of a literal.
#[derive(Clone, Copy, PartialEq, Eq, Debug)]
pub enum ElementFault {
    /// The line, the text or the literal ends there.
    End,
    /// A backslash stands there with no escape, or one whose value is over 255.
    BadEscape,
}

/// What a backslash and this byte stand for.
fn simple_escape(byte: u8) -> Option<u8>
    ensures { result ≡ simple_escape byte }
{
    match byte {
        b'\'' | b'"' | b'?' | b'\\' => Some(byte),
        b'a' => Some(7),
        b'b' => Some(8),
        b'f' => Some(12),
        b'n' => Some(10),
        b'r' => Some(13),
        b't' => Some(9),
        b'v' => Some(11),
        _ => None,
    }
}

/// The escape of digits that stands at the front of the text, whose digits begin at `first`.
fn numeric_escape(text: &[u8], radix: u32, first: usize, most: usize) -> Option<Element>
    requires begins { slice_index text.now 0 ≡ 92 }
    requires within { first ≤ length text.now }
    requires lower_bound { 2 ≤ radix }
    requires upper_bound { radix ≤ 36 }
    ensures { MatchOption result
        ((element : Element) → IsNumeric radix first most text.now element → ⊥)
        (λ element. IsNumeric radix first most text.now element) }
{
    let limit = text.len().min(first.saturating_add(most));
    let length = digits_end(text, first, limit, radix);
    if length == first {
        return None;
    }
    let value = digits_value(&text[first..length], radix)?;
    let value = u8::try_from(value).ok()?;
    Some(Element { value, length })
}

/// The escape at the front of the text, which begins with a backslash.
fn escape_at(text: &[u8], quote: u8) -> Option<Element>
    requires begins { slice_index text.now 0 ≡ 92 }
    requires quote { quote ≢ 92 }
    ensures { MatchOption result
        (NoElement quote text.now)
        (λ element. IsElement quote text.now element) }
{
    match text {
        [_, b'x', ..] => numeric_escape(text, 16, 2, text.len()),
        [_, b'0'..=b'7', ..] => numeric_escape(text, 8, 1, 3),
        [_, byte, ..] => Some(Element {
            value: simple_escape(*byte)?,
            length: 2,
        }),
        _ => None,
    }
}

/// The character or the escape at the front of the text, in a literal that `quote` closes.
pub fn element_at(text: &[u8], quote: u8) -> Result<Element, ElementFault>
    requires { quote ≢ 92 }
    ensures { MatchResult result
        (λ element. IsElement quote text.now element)
        (λ fault. NoElement quote text.now × Refused fault quote text.now) }
{
    match text {
        [b'\\', ..] => escape_at(text, quote).ok_or(ElementFault::BadEscape),
        [byte, ..] if *byte != b'\n' && *byte != quote => Ok(Element {
            value: *byte,
            length: 1,
        }),
        _ => Err(ElementFault::End),
    }
}

/// The value of the character constant that the text is (C11 6.4.4.4), where it is one.
pub fn character_of(text: &[u8]) -> Option<u8>
    ensures { MatchOption result
        ((value : ℕ) → IsCharacter text.now value → ⊥)
        (λ value. IsCharacter text.now value) }
{
    let [b'\'', inner @ ..] = text else {
        return None;
    };
    let Ok(element) = element_at(inner, b'\'') else {
        return None;
    };
    if inner.len() == element.length + 1 && inner[element.length] == b'\'' {
        Some(element.value)
    } else {
        None
    }
}

/// The bytes that a string literal (C11 6.4.5) stands for, without the zero byte at the end.
pub fn text_bytes(alloc: Global, text: &[u8]) -> Result<Vec<u8>, NoMemory>
    requires { (bytes : List ℕ) × IsText text.now bytes }
    ensures { IfOk result (λ bytes. IsText text.now bytes.items) }
{
    let mut bytes = Vec::new(alloc);
    let mut rest = &text[1..];
    while let Ok(element) = element_at(rest, b'"') {
        bytes.push(element.value)?;
        rest = &rest[element.length..];
    }
    Ok(bytes)
}
