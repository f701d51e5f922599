//! The lines of the list of type words (C11 6.7.2p2).
ghost use Rattle.std.specs.Prelude.{◌≡◌, List};
ghost use Rattle.std.specs.Option.{option_map};
ghost use Rattle.im_ctree.specs.declared.specifier.SpecifierWord.{SpecifierWord};
ghost use Rattle.im_check_scopes.specs.im_rules.Rules as u;
ghost use Rattle.im_check_type_specifiers.specs.Lines.{IsCounted, word_type_of, same_counts};
ghost use Rattle.im_check_type_specifiers.specs.Lines.{typed_by};

use im_ctype::Integer;

/// A type that type words alone name.
#[derive(Clone, Copy, Debug)]
pub enum WordType {
    Void,
    Integer(Integer),
}

/// How often each type word stands among specifiers.
#[derive(Clone, Copy, Debug)]
pub struct Counts {
    pub void: usize,
    pub char: usize,
    pub short: usize,
    pub int: usize,
    pub long: usize,
    pub signed: usize,
    pub unsigned: usize,
}

/// A line of the list: how often each word stands in it, and the type that it names.
#[derive(Clone, Copy, Debug)]
pub struct Line {
    pub counts: Counts,
    pub ty: WordType,
}

pub const LINES: [Line; 21] = [
    Line {
        counts: Counts {
            void: 1,
            char: 0,
            short: 0,
            int: 0,
            long: 0,
            signed: 0,
            unsigned: 0,
        },
        ty: WordType::Void,
    },
    Line {
        counts: Counts {
            void: 0,
            char: 1,
            short: 0,
            int: 0,
            long: 0,
            signed: 0,
            unsigned: 0,
        },
        ty: WordType::Integer(Integer::Char),
    },
    Line {
        counts: Counts {
            void: 0,
            char: 1,
            short: 0,
            int: 0,
            long: 0,
            signed: 1,
            unsigned: 0,
        },
        ty: WordType::Integer(Integer::SignedChar),
    },
    Line {
        counts: Counts {
            void: 0,
            char: 1,
            short: 0,
            int: 0,
            long: 0,
            signed: 0,
            unsigned: 1,
        },
        ty: WordType::Integer(Integer::UnsignedChar),
    },
    Line {
        counts: Counts {
            void: 0,
            char: 0,
            short: 1,
            int: 0,
            long: 0,
            signed: 0,
            unsigned: 0,
        },
        ty: WordType::Integer(Integer::Short),
    },
    Line {
        counts: Counts {
            void: 0,
            char: 0,
            short: 1,
            int: 0,
            long: 0,
            signed: 1,
            unsigned: 0,
        },
        ty: WordType::Integer(Integer::Short),
    },
    Line {
        counts: Counts {
            void: 0,
            char: 0,
            short: 1,
            int: 1,
            long: 0,
            signed: 0,
            unsigned: 0,
        },
        ty: WordType::Integer(Integer::Short),
    },
    Line {
        counts: Counts {
            void: 0,
            char: 0,
            short: 1,
            int: 1,
            long: 0,
            signed: 1,
            unsigned: 0,
        },
        ty: WordType::Integer(Integer::Short),
    },
    Line {
        counts: Counts {
            void: 0,
            char: 0,
            short: 1,
            int: 0,
            long: 0,
            signed: 0,
            unsigned: 1,
        },
        ty: WordType::Integer(Integer::UnsignedShort),
    },
    Line {
        counts: Counts {
            void: 0,
            char: 0,
            short: 1,
            int: 1,
            long: 0,
            signed: 0,
            unsigned: 1,
        },
        ty: WordType::Integer(Integer::UnsignedShort),
    },
    Line {
        counts: Counts {
            void: 0,
            char: 0,
            short: 0,
            int: 1,
            long: 0,
            signed: 0,
            unsigned: 0,
        },
        ty: WordType::Integer(Integer::Int),
    },
    Line {
        counts: Counts {
            void: 0,
            char: 0,
            short: 0,
            int: 0,
            long: 0,
            signed: 1,
            unsigned: 0,
        },
        ty: WordType::Integer(Integer::Int),
    },
    Line {
        counts: Counts {
            void: 0,
            char: 0,
            short: 0,
            int: 1,
            long: 0,
            signed: 1,
            unsigned: 0,
        },
        ty: WordType::Integer(Integer::Int),
    },
    Line {
        counts: Counts {
            void: 0,
            char: 0,
            short: 0,
            int: 0,
            long: 0,
            signed: 0,
            unsigned: 1,
        },
        ty: WordType::Integer(Integer::UnsignedInt),
    },
    Line {
        counts: Counts {
            void: 0,
            char: 0,
            short: 0,
            int: 1,
            long: 0,
            signed: 0,
            unsigned: 1,
        },
        ty: WordType::Integer(Integer::UnsignedInt),
    },
    Line {
        counts: Counts {
            void: 0,
            char: 0,
            short: 0,
            int: 0,
            long: 1,
            signed: 0,
            unsigned: 0,
        },
        ty: WordType::Integer(Integer::Long),
    },
    Line {
        counts: Counts {
            void: 0,
            char: 0,
            short: 0,
            int: 0,
            long: 1,
            signed: 1,
            unsigned: 0,
        },
        ty: WordType::Integer(Integer::Long),
    },
    Line {
        counts: Counts {
            void: 0,
            char: 0,
            short: 0,
            int: 1,
            long: 1,
            signed: 0,
            unsigned: 0,
        },
        ty: WordType::Integer(Integer::Long),
    },
    Line {
        counts: Counts {
            void: 0,
            char: 0,
            short: 0,
            int: 1,
            long: 1,
            signed: 1,
            unsigned: 0,
        },
        ty: WordType::Integer(Integer::Long),
    },
    Line {
        counts: Counts {
            void: 0,
            char: 0,
            short: 0,
            int: 0,
            long: 1,
            signed: 0,
            unsigned: 1,
        },
        ty: WordType::Integer(Integer::UnsignedLong),
    },
    Line {
        counts: Counts {
            void: 0,
            char: 0,
            short: 0,
            int: 1,
            long: 1,
            signed: 0,
            unsigned: 1,
        },
        ty: WordType::Integer(Integer::UnsignedLong),
    },
];

fn same(left: Counts, right: Counts) -> bool
    ensures { result ≡ same_counts left right }
{
    left.void == right.void
        && (left.char == right.char
            && (left.short == right.short
                && (left.int == right.int
                    && (left.long == right.long
                        && (left.signed == right.signed && left.unsigned == right.unsigned)))))
}

fn line_among(lines: &[Line], counts: Counts) -> Option<WordType>
    ensures { option_map word_type_of result ≡ typed_by lines.now counts }
{
    for line in lines {
        if same(line.counts, counts) {
            return Some(line.ty);
        }
    }
    None
}

/// The type of these words, if they are a line of the list.
pub fn line_of(counts: Counts) -> Option<WordType>
    ensures { (ks : List SpecifierWord) → IsCounted counts ks → option_map word_type_of result ≡
        u.line_type u.lines ks }
{
    line_among(&LINES, counts)
}
