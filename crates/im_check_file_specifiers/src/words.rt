//! What stands among specifiers.
ghost use Rattle.std.specs.Prelude.{◌≡◌, ◌+◌, ◌∷◌, List, length, MatchResult, IfErr};
ghost use Rattle.im_ctree.specs.Tree as t;
ghost use Rattle.im_rules.specs.FileScope.{level_asks};
ghost use Rattle.im_rules.specs.Rules as u;
ghost use Rattle.im_rules.specs.UnitBreaks.{begins_with_list};
ghost use Rattle.im_check_stop.specs.Answers.{IsRefusal};
ghost use Rattle.im_check_stop.specs.declared.stop.Stop.TheVariants.{Memory};
ghost use Rattle.im_ctree_parts.specs.Lists.{list_from, specifier_in};
ghost use Rattle.im_check_type_specifiers.specs.Lists.{one_if, with_named};
ghost use Rattle.im_check_file_specifiers.specs.Answers.{level_of};
ghost use Rattle.im_check_file_specifiers.specs.Words.{HasNamed, MayStand};

use crate::level::{Level, storage_stands};
use im_check_stop::{Stop, refused};
use im_check_type_specifiers::storage_count;
use im_ctree::{Specifier, SpecifierKind, SpecifierWord};

fn is_type_word(word: SpecifierWord) -> bool
    ensures { result ≡ u.is_type_word word }
{
    match word {
        SpecifierWord::Typedef
        | SpecifierWord::Extern
        | SpecifierWord::Static
        | SpecifierWord::Const => false,
        _ => true,
    }
}

/// Whether it is a type word, or a struct, an enum or a typedef name.
fn names_type(specifier: &Specifier) -> bool
    ensures { (rest : t.SpecifierList) → length
        (u.named_in (t.more_specifiers (specifier_in specifier.now) rest)) + length
        (u.keywords_in (t.more_specifiers (specifier_in specifier.now) rest))
        ≡ one_if result + (length (u.named_in rest) + length (u.keywords_in rest)) }
{
    match &specifier.kind {
        SpecifierKind::Word(word) => is_type_word(*word),
        _ => true,
    }
}

/// How many type words, structs, enums and typedef names there are.
fn type_count(specifiers: &[Specifier]) -> usize
    ensures { result ≡ length (u.named_in (list_from specifiers.now)) + length
        (u.keywords_in (list_from specifiers.now)) }
{
    let mut n = 0;
    for specifier in specifiers {
        if names_type(specifier) {
            n += 1;
        }
    }
    n
}

fn is_named(specifier: &Specifier) -> bool
    ensures { (rest : t.SpecifierList)
        → u.named_in (t.more_specifiers (specifier_in specifier.now) rest)
        ≡ with_named result (specifier_in specifier.now) (u.named_in rest) }
{
    match &specifier.kind {
        SpecifierKind::Word(_) => false,
        _ => true,
    }
}

/// Whether a struct, an enum or a typedef name is among specifiers.
fn has_named(specifiers: &[Specifier]) -> bool
    ensures { HasNamed result (u.named_in (list_from specifiers.now)) }
{
    for specifier in specifiers {
        if is_named(specifier) {
            return true;
        }
    }
    false
}

/// Whether it is a list of members or of enumerators.
pub fn is_list(specifier: &Specifier) -> bool
    ensures { (rest : List t.Specifier) → begins_with_list (specifier_in specifier.now ∷ rest)
        ≡ result }
{
    match &specifier.kind {
        SpecifierKind::Struct(_, _) | SpecifierKind::Enum(_, _) => true,
        _ => false,
    }
}

/// Whether specifiers, of which a struct, an enum or a typedef name is one, make up a type.
fn is_one(specifiers: &[Specifier]) -> bool
    ensures { (s : t.Specifier) (rest : List t.Specifier) → u.named_in (list_from specifiers.now)
        ≡ s ∷ rest → result ≡ u.rule_1 (list_from specifiers.now) }
{
    type_count(specifiers) == 1 && storage_count(specifiers) <= 1
}

/// The words that may stand there: a struct, an enum or a typedef name among them is the type.
pub fn may_stand(level: Level, at: u32, specifiers: &[Specifier]) -> Result<(), Stop>
    ensures asked { MatchResult result
        (λ _. MayStand (level_of level) (list_from specifiers.now))
        (IsRefusal (level_asks (level_of level) (list_from specifiers.now)) at) }
    ensures spared { IfErr result (λ stop. stop ≡ Memory → ⊥) }
{
    if !storage_stands(level, specifiers) {
        return Err(refused(2, at));
    }
    if has_named(specifiers) && !is_one(specifiers) {
        return Err(refused(1, at));
    }
    Ok(())
}
