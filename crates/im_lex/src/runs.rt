ghost use Rattle.std.specs.Prelude.{◌≡◌, ◌≢◌, ℕ, ◌≤◌, ◌<◌, ◌+◌, ◌↔◌, IsTrue, MatchOption, length};
ghost use Rattle.std.specs.Prelude.{slice_index};
ghost use Rattle.im_lex.specs.Bytes.{IsNameByte, IsGap, GoesOn};
ghost use Rattle.im_lex.specs.Pieces.{ClosesAt, BeginsMarker};
ghost use Rattle.im_lex.specs.Runs.{IsRun, IsNumberEnd, IsCommentEnd};

/// Whether a byte stands in a name.
fn is_name_byte(byte: u8) -> bool
    ensures { IsTrue result ↔ IsNameByte byte }
{
    byte.is_ascii_alphanumeric() || byte == b'_'
}

/// Whether a byte goes on a number whose last byte is `last` (C11 6.4.8).
fn goes_on(last: u8, byte: u8) -> bool
    ensures { IsTrue result ↔ GoesOn last byte }
{
    match byte {
        b'.' => true,
        b'+' | b'-' => matches!(last, b'e' | b'E' | b'p' | b'P'),
        _ => is_name_byte(byte),
    }
}

/// Where the run of letters, digits and `_` at the front of the text ends.
pub fn name_end(text: &[u8]) -> usize
    ensures { IsRun IsNameByte text.now result }
{
    let mut end = 0;
    while end < text.len() && is_name_byte(text[end]) {
        end += 1;
    }
    end
}

/// Where the number that begins the text ends.
pub fn number_end(text: &[u8]) -> usize
    requires { 0 < length text.now }
    ensures { IsNumberEnd text.now result }
{
    let mut end = 1;
    while end < text.len() && goes_on(text[end - 1], text[end]) {
        end += 1;
    }
    end
}

/// Where the first line of the text ends, before its LF.
pub fn line_end(text: &[u8]) -> usize
    ensures { IsRun (λ byte. byte ≢ 10) text.now result }
{
    let mut end = 0;
    while end < text.len() && text[end] != b'\n' {
        end += 1;
    }
    end
}

/// Where the comment that begins the text with `/*` ends, behind its `*/`.
pub fn comment_end(text: &[u8]) -> Option<usize>
    requires { 2 ≤ length text.now }
    ensures { MatchOption result
        ((i : ℕ) → 2 ≤ i → i + 2 ≤ length text.now → ClosesAt text.now i → ⊥)
        (λ end. IsCommentEnd text.now end) }
{
    let mut place = 2;
    while place < text.len() - 1 {
        if text[place] == b'*' && text[place + 1] == b'/' {
            return Some(place + 2);
        }
        place += 1;
    }
    None
}

/// Whether the text begins with a `#`, blanks or tabs, and a digit.
pub fn begins_marker(text: &[u8]) -> bool
    requires { slice_index text.now 0 ≡ 35 }
    ensures { IsTrue result ↔ BeginsMarker text.now }
{
    let mut place = 1;
    while place < text.len() && matches!(text[place], b' ' | b'\t') {
        place += 1;
    }
    place < text.len() && text[place].is_ascii_digit()
}
