use im_tok::TokenKind;

/// What a piece of a source is (C11 6.4).
#[derive(Clone, Copy, PartialEq, Eq, Debug)]
pub enum PieceKind {
    Token(TokenKind),
    /// One byte of white space.
    Blank,
    Comment,
    /// A line that says which line of which file follows.
    Marker,
    /// A comment without its end.
    OpenComment,
}

/// A piece of a source, and the bytes that it takes.
#[derive(Clone, Copy, PartialEq, Eq, Debug)]
pub struct Piece {
    pub kind: PieceKind,
    pub length: usize,
}
