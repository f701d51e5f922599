ghost use Rattle.std.specs.Prelude.{◌≡◌, ◌≤◌, length, slice_range};

/// What a token is (C11 6.4).
#[derive(Clone, Copy, PartialEq, Eq, Debug)]
pub enum TokenKind {
    /// An identifier.
    Name,
    Keyword,
    /// An integer constant.
    Number,
    /// A character constant.
    Character,
    /// A string literal.
    Text,
    Punctuator,
}

/// A token of a source. It borrows nothing: its bytes are found by its span.
#[derive(Clone, Copy, PartialEq, Eq, Debug)]
pub struct Token {
    pub kind: TokenKind,
    /// The bytes of the source from the first place on, up to before the second.
    pub span: (u32, u32),
    /// The line that it begins in, counted from 1.
    pub line: u32,
}

impl Token {
    /// The bytes of the token.
    pub fn text<'a>(&self, source: &'a [u8]) -> &'a [u8]
        requires ordered { self.now.span.0 ≤ self.now.span.1 }
        requires within { self.now.span.1 ≤ length source.now }
        ensures { result.now ≡ slice_range source.now self.now.span.0 self.now.span.1 }
    {
        &source[self.span.0 as usize..self.span.1 as usize]
    }
}
