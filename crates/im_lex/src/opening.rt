ghost use Rattle.std.specs.Prelude.{◌≡◌};
ghost use Rattle.im_lex.specs.Openings.{opening_of, Opens};

/// What a piece may be, by its first two bytes.
#[derive(Clone, Copy, PartialEq, Eq, Debug)]
pub enum Opening {
    Blank,
    Name,
    Number,
    Character,
    Text,
    Hash,
    Comment,
    Other,
}

/// What a piece that begins with these two bytes may be; 0 stands for a second byte that is absent.
pub fn opening_of(first: u8, second: u8) -> Opening
    ensures is { result ≡ opening_of first second }
    ensures opens { Opens result first second }
{
    match first {
        b'\t'..=b'\r' | b' ' => Opening::Blank,
        b'a'..=b'z' | b'A'..=b'Z' | b'_' => Opening::Name,
        b'0'..=b'9' => Opening::Number,
        b'\'' => Opening::Character,
        b'"' => Opening::Text,
        b'#' => Opening::Hash,
        b'/' => match second {
            b'*' | b'/' => Opening::Comment,
            _ => Opening::Other,
        },
        b'.' => match second {
            b'0'..=b'9' => Opening::Number,
            _ => Opening::Other,
        },
        _ => Opening::Other,
    }
}
