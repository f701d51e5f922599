ghost use Rattle.std.specs.Prelude.{◌≡◌, ◌≢◌, MatchOption};
ghost use Rattle.im_tok.specs.Punctuators.{punctuator_text};
ghost use Rattle.im_tok.specs.declared.punctuator.Punctuator.{Punctuator};

/// A punctuator (C11 6.4.6), without the digraphs and those of the preprocessor.
#[derive(Clone, Copy, PartialEq, Eq, Debug)]
pub enum Punctuator {
    OpenBracket,
    CloseBracket,
    OpenParen,
    CloseParen,
    OpenBrace,
    CloseBrace,
    Dot,
    Arrow,
    Increment,
    Decrement,
    Ampersand,
    Star,
    Plus,
    Minus,
    Tilde,
    Exclamation,
    Slash,
    Percent,
    ShiftLeft,
    ShiftRight,
    Less,
    Greater,
    LessEqual,
    GreaterEqual,
    EqualEqual,
    NotEqual,
    Caret,
    Bar,
    AndAnd,
    OrOr,
    Question,
    Colon,
    Semicolon,
    Ellipsis,
    Assign,
    StarAssign,
    SlashAssign,
    PercentAssign,
    PlusAssign,
    MinusAssign,
    ShiftLeftAssign,
    ShiftRightAssign,
    AndAssign,
    XorAssign,
    OrAssign,
    Comma,
}

impl Punctuator {
    /// All of them, in the order of the standard.
    pub const ALL: [Punctuator; 46] = [
        Punctuator::OpenBracket,
        Punctuator::CloseBracket,
        Punctuator::OpenParen,
        Punctuator::CloseParen,
        Punctuator::OpenBrace,
        Punctuator::CloseBrace,
        Punctuator::Dot,
        Punctuator::Arrow,
        Punctuator::Increment,
        Punctuator::Decrement,
        Punctuator::Ampersand,
        Punctuator::Star,
        Punctuator::Plus,
        Punctuator::Minus,
        Punctuator::Tilde,
        Punctuator::Exclamation,
        Punctuator::Slash,
        Punctuator::Percent,
        Punctuator::ShiftLeft,
        Punctuator::ShiftRight,
        Punctuator::Less,
        Punctuator::Greater,
        Punctuator::LessEqual,
        Punctuator::GreaterEqual,
        Punctuator::EqualEqual,
        Punctuator::NotEqual,
        Punctuator::Caret,
        Punctuator::Bar,
        Punctuator::AndAnd,
        Punctuator::OrOr,
        Punctuator::Question,
        Punctuator::Colon,
        Punctuator::Semicolon,
        Punctuator::Ellipsis,
        Punctuator::Assign,
        Punctuator::StarAssign,
        Punctuator::SlashAssign,
        Punctuator::PercentAssign,
        Punctuator::PlusAssign,
        Punctuator::MinusAssign,
        Punctuator::ShiftLeftAssign,
        Punctuator::ShiftRightAssign,
        Punctuator::AndAssign,
        Punctuator::XorAssign,
        Punctuator::OrAssign,
        Punctuator::Comma,
    ];

    /// How it is spelled.
    pub fn text(self) -> &'static [u8]
        ensures { result.now ≡ punctuator_text self }
    {
        match self {
            Punctuator::OpenBracket => b"[",
            Punctuator::CloseBracket => b"]",
            Punctuator::OpenParen => b"(",
            Punctuator::CloseParen => b")",
            Punctuator::OpenBrace => b"{",
            Punctuator::CloseBrace => b"}",
            Punctuator::Dot => b".",
            Punctuator::Arrow => b"->",
            Punctuator::Increment => b"++",
            Punctuator::Decrement => b"--",
            Punctuator::Ampersand => b"&",
            Punctuator::Star => b"*",
            Punctuator::Plus => b"+",
            Punctuator::Minus => b"-",
            Punctuator::Tilde => b"~",
            Punctuator::Exclamation => b"!",
            Punctuator::Slash => b"/",
            Punctuator::Percent => b"%",
            Punctuator::ShiftLeft => b"<<",
            Punctuator::ShiftRight => b">>",
            Punctuator::Less => b"<",
            Punctuator::Greater => b">",
            Punctuator::LessEqual => b"<=",
            Punctuator::GreaterEqual => b">=",
            Punctuator::EqualEqual => b"==",
            Punctuator::NotEqual => b"!=",
            Punctuator::Caret => b"^",
            Punctuator::Bar => b"|",
            Punctuator::AndAnd => b"&&",
            Punctuator::OrOr => b"||",
            Punctuator::Question => b"?",
            Punctuator::Colon => b":",
            Punctuator::Semicolon => b";",
            Punctuator::Ellipsis => b"...",
            Punctuator::Assign => b"=",
            Punctuator::StarAssign => b"*=",
            Punctuator::SlashAssign => b"/=",
            Punctuator::PercentAssign => b"%=",
            Punctuator::PlusAssign => b"+=",
            Punctuator::MinusAssign => b"-=",
            Punctuator::ShiftLeftAssign => b"<<=",
            Punctuator::ShiftRightAssign => b">>=",
            Punctuator::AndAssign => b"&=",
            Punctuator::XorAssign => b"^=",
            Punctuator::OrAssign => b"|=",
            Punctuator::Comma => b",",
        }
    }
}

/// The punctuator that is spelled so, where one is.
pub fn punctuator_of(text: &[u8]) -> Option<Punctuator>
    ensures { MatchOption result
        ((punctuator : Punctuator) → text.now ≢ punctuator_text punctuator)
        (λ punctuator. text.now ≡ punctuator_text punctuator) }
{
    for punctuator in Punctuator::ALL {
        if text == punctuator.text() {
            return Some(punctuator);
        }
    }
    None
}
