//! Enums with their lists (C11 6.7.2.2).
ghost use Rattle.std.specs.Prelude.{◌≡◌, ◌∷◌, ℕ, List, MatchResult, OnOk, IfErr};
ghost use Rattle.im_ctree.specs.Tree as t;
ghost use Rattle.im_ctree.specs.declared.specifier.SpecifierWord.{SpecifierWord};
ghost use Rattle.im_rules.specs.Demands.{Meets};
ghost use Rattle.im_rules.specs.FileScope as f;
ghost use Rattle.im_rules.specs.Rules as u;
ghost use Rattle.im_rules.specs.TypedUnit.{NamesType};
ghost use Rattle.im_rules.specs.UnitBreaks.{some_named};
ghost use Rattle.im_rules_limits.specs.Limits.{IsFileWithin};
ghost use Rattle.im_check_scopes.specs.Shape.{scopes_of};
ghost use Rattle.im_check_stop.specs.Answers.{IsRefusal};
ghost use Rattle.im_check_stop.specs.declared.stop.Stop.TheVariants.{Memory};
ghost use Rattle.im_ctree_parts.specs.Lists.{enumerators_from};
ghost use Rattle.im_check_file_place.specs.Files.{file_place_of};
ghost use Rattle.im_check_file_specifiers.specs.Answers.{IsFileFault};
ghost use Rattle.im_check_file_specifiers.specs.Lists.{tag_of, enum_type};

use crate::enumerators::enumerated;
use im_check_file_place::File;
use im_check_scopes::{Scope, Tag};
use im_check_stop::{Stop, refused};
use im_ctree::Enumerator;
use im_num::NoMemory;
use std::alloc::Global;

/// Whether that tag is no struct's.
fn is_no_struct(scope: &Scope, tag: &Option<Vec<u8>>) -> bool
    ensures { result ≡ f.enum_tag_asked (scopes_of scope.now) (tag_of tag.now) }
{
    match tag {
        None => true,
        Some(name) => match scope.tag_meaning(name) {
            Some(Tag::Struct(_)) => false,
            _ => true,
        },
    }
}

/// Whether a list of that tag stands at file scope, and is the first one of its tag.
fn is_first(scope: &Scope, tag: &Option<Vec<u8>>) -> bool
    ensures { result ≡ u.rule_8_list (scopes_of scope.now) (tag_of tag.now) }
{
    if !scope.at_file_scope() {
        return false;
    }
    match tag {
        None => true,
        Some(name) => match scope.tag_meaning(name) {
            Some(Tag::Enum) => false,
            _ => true,
        },
    }
}

/// A list of enumerators may stand there (C11 6.7.2.3p1).
fn may_list(scope: &Scope, at: u32, tag: &Option<Vec<u8>>) -> Result<(), Stop>
    ensures asked { let asked = f.enum_asks (scopes_of scope.now) (tag_of tag.now) in
        MatchResult result (λ _. Meets asked) (IsRefusal asked at) }
    ensures spared { IfErr result (λ stop. stop ≡ Memory → ⊥) }
{
    if !is_no_struct(scope, tag) {
        return Err(refused(3, at));
    }
    if !is_first(scope, tag) {
        return Err(refused(8, at));
    }
    Ok(())
}

/// Declares an enum's tag.
fn declare_tag(alloc: Global, tag: &Option<Vec<u8>>, file: &mut File) -> Result<(), NoMemory>
    ensures { OnOk result (file_place_of file.new
        ≡ f.with_enum_tag (tag_of tag.now) (file_place_of file.old)) }
{
    match tag {
        None => Ok(()),
        Some(name) => {
            let kept = Vec::from_slice(alloc, name)?;
            file.place.scope.declare_tag(alloc, kept, Tag::Enum)
        }
    }
}

/// An enum with its constants, whose first token is that one.
pub fn enumeration(
    alloc: Global,
    at: u32,
    tag: &Option<Vec<u8>>,
    enumerators: &[Enumerator],
    file: &mut File,
) -> Result<(), Stop>
    ensures { (first : ℕ) (ss : List t.Specifier) (ks : List SpecifierWord)
        → let all = t.enum_specifier at (tag_of tag.now) (enumerators_from enumerators.now) ∷ ss in
        MatchResult result
        (λ _. NamesType (file_place_of file.old) all ks enum_type (file_place_of file.new)
        × IsFileWithin (file_place_of file.old) (some_named first all))
        (IsFileFault (file_place_of file.old) (some_named first all)) }
{
    may_list(&file.place.scope, at, tag)?;
    enumerated(alloc, enumerators, file)?;
    declare_tag(alloc, tag, file)?;
    Ok(())
}
