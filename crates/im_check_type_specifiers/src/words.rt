//! The words among specifiers.
ghost use Rattle.std.specs.Prelude.{◌≡◌, ◌+◌, ◌<◌, ◌≤◌, ◌||◌, length};
ghost use Rattle.im_ctree.specs.Tree as t;
ghost use Rattle.im_check_scopes.specs.im_rules.Declared as d;
ghost use Rattle.im_check_scopes.specs.im_rules.Rules as u;
ghost use Rattle.im_check_type_specifiers.specs.Lines.{IsCounted};
ghost use Rattle.im_check_type_specifiers.specs.Lists as l;
ghost use Rattle.im_check_type_specifiers.specs.Lists.{with_named};
ghost use Rattle.im_ctree_parts.specs.Lists.{list_from, specifier_in};

use crate::line::Counts;
use im_ctree::{Specifier, SpecifierKind, SpecifierWord};

fn code_of(word: SpecifierWord) -> u32
    ensures { result ≡ u.word_code word }
{
    match word {
        SpecifierWord::Void => 1,
        SpecifierWord::Char => 2,
        SpecifierWord::Short => 3,
        SpecifierWord::Int => 4,
        SpecifierWord::Long => 5,
        SpecifierWord::Signed => 6,
        SpecifierWord::Unsigned => 7,
        SpecifierWord::Typedef
        | SpecifierWord::Extern
        | SpecifierWord::Static
        | SpecifierWord::Const => 0,
    }
}

fn is_storage(word: SpecifierWord) -> bool
    ensures { result ≡ u.is_storage word }
{
    match word {
        SpecifierWord::Typedef | SpecifierWord::Extern | SpecifierWord::Static => true,
        _ => false,
    }
}

fn one_if(holds: bool) -> usize
    ensures some { result ≤ 1 }
    ensures value { result ≡ l.one_if holds }
{
    if holds { 1 } else { 0 }
}

/// 1 of the type word of this code.
fn word_count(specifier: &Specifier, code: u32) -> usize
    requires { 0 < code }
    ensures some { result ≤ 1 }
    ensures value { (rest : t.SpecifierList) → u.count_word code
        (u.keywords_in (t.more_specifiers (specifier_in specifier.now) rest)) ≡ result + u.count_word
        code (u.keywords_in rest) }
{
    match &specifier.kind {
        SpecifierKind::Word(word) => one_if(code_of(*word) == code),
        _ => 0,
    }
}

fn count(specifiers: &[Specifier], code: u32) -> usize
    requires { 0 < code }
    ensures { result ≡ u.count_word code (u.keywords_in (list_from specifiers.now)) }
{
    let mut n = 0;
    for specifier in specifiers {
        n += word_count(specifier, code);
    }
    n
}

pub fn counts_of(specifiers: &[Specifier]) -> Counts
    ensures { IsCounted result (u.keywords_in (list_from specifiers.now)) }
{
    Counts {
        void: count(specifiers, 1),
        char: count(specifiers, 2),
        short: count(specifiers, 3),
        int: count(specifiers, 4),
        long: count(specifiers, 5),
        signed: count(specifiers, 6),
        unsigned: count(specifiers, 7),
    }
}

/// 1 of a storage word.
fn storage_words(specifier: &Specifier) -> usize
    ensures some { result ≤ 1 }
    ensures value { (rest : t.SpecifierList) → length
        (u.storage_in (t.more_specifiers (specifier_in specifier.now) rest)) ≡ result + length
        (u.storage_in rest) }
{
    match &specifier.kind {
        SpecifierKind::Word(word) => one_if(is_storage(*word)),
        _ => 0,
    }
}

/// How many storage words there are.
pub fn storage_count(specifiers: &[Specifier]) -> usize
    ensures { result ≡ length (u.storage_in (list_from specifiers.now)) }
{
    let mut n = 0;
    for specifier in specifiers {
        n += storage_words(specifier);
    }
    n
}

pub fn is_named(specifier: &Specifier) -> bool
    ensures { (rest : t.SpecifierList) → u.named_in (t.more_specifiers (specifier_in specifier.now) rest)
        ≡ with_named result (specifier_in specifier.now) (u.named_in rest) }
{
    match &specifier.kind {
        SpecifierKind::Word(_) => false,
        _ => true,
    }
}

/// 1 of a struct, an enum or a typedef name.
fn named(specifier: &Specifier) -> usize
    ensures some { result ≤ 1 }
    ensures value { (rest : t.SpecifierList) → length
        (u.named_in (t.more_specifiers (specifier_in specifier.now) rest)) ≡ result + length
        (u.named_in rest) }
{
    match &specifier.kind {
        SpecifierKind::Word(_) => 0,
        _ => 1,
    }
}

/// How many structs, enums and typedef names there are.
pub fn named_count(specifiers: &[Specifier]) -> usize
    ensures { result ≡ length (u.named_in (list_from specifiers.now)) }
{
    let mut n = 0;
    for specifier in specifiers {
        n += named(specifier);
    }
    n
}

/// 1 of a type word.
fn type_words(specifier: &Specifier) -> usize
    ensures some { result ≤ 1 }
    ensures value { (rest : t.SpecifierList) → length
        (u.keywords_in (t.more_specifiers (specifier_in specifier.now) rest)) ≡ result + length
        (u.keywords_in rest) }
{
    match &specifier.kind {
        SpecifierKind::Word(word) => one_if(code_of(*word) > 0),
        _ => 0,
    }
}

/// How many type words of one keyword there are.
pub fn keyword_count(specifiers: &[Specifier]) -> usize
    ensures { result ≡ length (u.keywords_in (list_from specifiers.now)) }
{
    let mut n = 0;
    for specifier in specifiers {
        n += type_words(specifier);
    }
    n
}

fn is_const(specifier: &Specifier) -> bool
    ensures { (rest : t.SpecifierList) → d.has_const
        (t.more_specifiers (specifier_in specifier.now) rest) ≡ (result || d.has_const rest) }
{
    match &specifier.kind {
        SpecifierKind::Word(SpecifierWord::Const) => true,
        _ => false,
    }
}

/// Whether `const` is one of the words.
pub fn has_const(specifiers: &[Specifier]) -> bool
    ensures { result ≡ d.has_const (list_from specifiers.now) }
{
    for specifier in specifiers {
        if is_const(specifier) {
            return true;
        }
    }
    false
}
