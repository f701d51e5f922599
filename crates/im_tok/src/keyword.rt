ghost use Rattle.std.specs.Prelude.{◌≡◌, ◌≢◌, MatchOption};
ghost use Rattle.im_tok.specs.Keywords.{keyword_text};
ghost use Rattle.im_tok.specs.declared.keyword.Keyword.{Keyword};

/// A keyword (C11 6.4.1).
#[derive(Clone, Copy, PartialEq, Eq, Debug)]
pub enum Keyword {
    Auto,
    Break,
    Case,
    Char,
    Const,
    Continue,
    Default,
    Do,
    Double,
    Else,
    Enum,
    Extern,
    Float,
    For,
    Goto,
    If,
    Inline,
    Int,
    Long,
    Register,
    Restrict,
    Return,
    Short,
    Signed,
    Sizeof,
    Static,
    Struct,
    Switch,
    Typedef,
    Union,
    Unsigned,
    Void,
    Volatile,
    While,
    Alignas,
    Alignof,
    Atomic,
    Bool,
    Complex,
    Generic,
    Imaginary,
    Noreturn,
    StaticAssert,
    ThreadLocal,
}

impl Keyword {
    /// All of them, in the order of the standard.
    pub const ALL: [Keyword; 44] = [
        Keyword::Auto,
        Keyword::Break,
        Keyword::Case,
        Keyword::Char,
        Keyword::Const,
        Keyword::Continue,
        Keyword::Default,
        Keyword::Do,
        Keyword::Double,
        Keyword::Else,
        Keyword::Enum,
        Keyword::Extern,
        Keyword::Float,
        Keyword::For,
        Keyword::Goto,
        Keyword::If,
        Keyword::Inline,
        Keyword::Int,
        Keyword::Long,
        Keyword::Register,
        Keyword::Restrict,
        Keyword::Return,
        Keyword::Short,
        Keyword::Signed,
        Keyword::Sizeof,
        Keyword::Static,
        Keyword::Struct,
        Keyword::Switch,
        Keyword::Typedef,
        Keyword::Union,
        Keyword::Unsigned,
        Keyword::Void,
        Keyword::Volatile,
        Keyword::While,
        Keyword::Alignas,
        Keyword::Alignof,
        Keyword::Atomic,
        Keyword::Bool,
        Keyword::Complex,
        Keyword::Generic,
        Keyword::Imaginary,
        Keyword::Noreturn,
        Keyword::StaticAssert,
        Keyword::ThreadLocal,
    ];

    /// How it is spelled.
    pub fn text(self) -> &'static [u8]
        ensures { result.now ≡ keyword_text self }
    {
        match self {
            Keyword::Auto => b"auto",
            Keyword::Break => b"break",
            Keyword::Case => b"case",
            Keyword::Char => b"char",
            Keyword::Const => b"const",
            Keyword::Continue => b"continue",
            Keyword::Default => b"default",
            Keyword::Do => b"do",
            Keyword::Double => b"double",
            Keyword::Else => b"else",
            Keyword::Enum => b"enum",
            Keyword::Extern => b"extern",
            Keyword::Float => b"float",
            Keyword::For => b"for",
            Keyword::Goto => b"goto",
            Keyword::If => b"if",
            Keyword::Inline => b"inline",
            Keyword::Int => b"int",
            Keyword::Long => b"long",
            Keyword::Register => b"register",
            Keyword::Restrict => b"restrict",
            Keyword::Return => b"return",
            Keyword::Short => b"short",
            Keyword::Signed => b"signed",
            Keyword::Sizeof => b"sizeof",
            Keyword::Static => b"static",
            Keyword::Struct => b"struct",
            Keyword::Switch => b"switch",
            Keyword::Typedef => b"typedef",
            Keyword::Union => b"union",
            Keyword::Unsigned => b"unsigned",
            Keyword::Void => b"void",
            Keyword::Volatile => b"volatile",
            Keyword::While => b"while",
            Keyword::Alignas => b"_Alignas",
            Keyword::Alignof => b"_Alignof",
            Keyword::Atomic => b"_Atomic",
            Keyword::Bool => b"_Bool",
            Keyword::Complex => b"_Complex",
            Keyword::Generic => b"_Generic",
            Keyword::Imaginary => b"_Imaginary",
            Keyword::Noreturn => b"_Noreturn",
            Keyword::StaticAssert => b"_Static_assert",
            Keyword::ThreadLocal => b"_Thread_local",
        }
    }
}

/// The keyword that is spelled so, where one is.
pub fn keyword_of(text: &[u8]) -> Option<Keyword>
    ensures { MatchOption result
        ((keyword : Keyword) → text.now ≢ keyword_text keyword)
        (λ keyword. text.now ≡ keyword_text keyword) }
{
    for keyword in Keyword::ALL {
        if text == keyword.text() {
            return Some(keyword);
        }
    }
    None
}
