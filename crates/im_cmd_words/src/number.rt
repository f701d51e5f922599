ghost use Rattle.std.specs.Prelude.{◌≡◌};
ghost use Rattle.im_cmd_words.specs.Numbers.{number_between, plain_number, starts_plainly};

/// Whether the text is `0` or begins with one of the digits 1 to 9.
fn starts_plainly(text: &str) -> bool
    ensures { result ≡ starts_plainly text.now }
{
    text == "0" || matches!(text.as_bytes().first(), Some(b'1'..=b'9'))
}

/// The number that decimal digits write with no sign and no zero before them.
pub(crate) fn plain_number(text: &str) -> Option<u32>
    ensures { result ≡ plain_number text.now }
{
    if !starts_plainly(text) {
        return None;
    }
    text.parse::<u32>().ok()
}

/// The number in these bounds that decimal digits write with no sign and no zero before them.
pub(crate) fn number_between(text: &str, least: u32, most: u32) -> Option<u32>
    ensures { result ≡ number_between least most text.now }
{
    let number = plain_number(text)?;
    if number < least || most < number {
        return None;
    }
    Some(number)
}
