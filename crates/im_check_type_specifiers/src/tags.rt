//! The structs that tags name (C11 6.7.2.3).
ghost use Rattle.std.specs.Prelude.{◌≡◌, ◌∷◌, [], IfOk, OnOk, OnErr, MatchResult};
ghost use Rattle.im_ctree.specs.Tree as t;
ghost use Rattle.im_check_scopes.specs.im_rules.Context as c;
ghost use Rattle.im_check_scopes.specs.im_rules.Context.{Context};
ghost use Rattle.im_check_scopes.specs.im_rules.Declared.{tags_in, declaration_asks, tags_declared};
ghost use Rattle.im_check_scopes.specs.im_rules.Demands.{Meets};
ghost use Rattle.im_check_scopes.specs.im_rules.Rules.{named_in};
ghost use Rattle.im_check_scopes.specs.Shape.{scopes_of};
ghost use Rattle.im_ctree_parts.specs.Lists.{list_from};
ghost use Rattle.im_check_stop.specs.Answers.{IsRefusal};
ghost use Rattle.im_check_type_specifiers.specs.Specified.{at_place};
ghost use Rattle.im_check_type_specifiers.specs.Tags.{listed_in, IsGrown};

use crate::specified::first_named;
use im_check_name_map::TagList;
use im_check_scopes::{Scope, Tag};
use im_check_stop::{Stop, refused};
use im_ctree::{Specifier, SpecifierKind};
use im_num::{NoMemory, beyond_memory};
use std::alloc::Global;

/// The number of the member list of a tag at file scope, if there is one.
fn listed(scope: &Scope, lists: &TagList, tag: &[u8]) -> Option<usize>
    ensures { result ≡ listed_in scope.now lists.now tag.now }
{
    if scope.at_file_scope() {
        lists.number(tag)
    } else {
        None
    }
}

/// A number of 32 bits; want of memory where it has more.
fn narrowed(number: usize) -> Result<u32, NoMemory>
    ensures { IfOk result (λ n. n ≡ number) }
{
    match u32::try_from(number) {
        Ok(n) => Ok(n),
        Err(_) => Err(beyond_memory()),
    }
}

/// The number of the struct that a tag declares whose first token is that one.
pub fn tag_number(scope: &Scope, lists: &TagList, first: u32, tag: &[u8]) -> Result<u32, NoMemory>
    ensures { IfOk result
        (λ n. (k : Context) → c.tag_number (at_place k scope.now lists.now) first tag.now ≡ n) }
{
    match listed(scope, lists, tag) {
        Some(number) => narrowed(number),
        None => narrowed(lists.len().saturating_add(first as usize)),
    }
}

/// Declares a struct's tag that isn't in scope.
fn declare_struct(
    alloc: Global,
    scope: &mut Scope,
    lists: &TagList,
    first: u32,
    tag: &[u8],
) -> Result<(), NoMemory>
    ensures scopes { OnOk result ((k : Context) → scopes_of scope.new
        ≡ tags_in (at_place k scope.old lists.now) (t.struct_tag first tag.now ∷ [])) }
    ensures grown { OnOk result (IsGrown scope.old scope.new) }
    ensures unchanged { OnErr result (scope.new ≡ scope.old) }
{
    if scope.tag_meaning(tag).is_some() {
        return Ok(());
    }
    let number = tag_number(scope, lists, first, tag)?;
    let kept = Vec::from_slice(alloc, tag)?;
    scope.declare_tag(alloc, kept, Tag::Struct(number))
}

/// Declares the struct's tag that specifiers in a declaration or a parameter mention, where it
/// isn't in scope (C11 6.7.2.3p8).
pub fn mention(
    alloc: Global,
    scope: &mut Scope,
    lists: &TagList,
    specifiers: &[Specifier],
) -> Result<(), NoMemory>
    ensures scopes { OnOk result ((k : Context) → scopes_of scope.new
        ≡ tags_in (at_place k scope.old lists.now) (named_in (list_from specifiers.now))) }
    ensures grown { OnOk result (IsGrown scope.old scope.new) }
    ensures unchanged { OnErr result (scope.new ≡ scope.old) }
{
    let Some(named) = first_named(specifiers) else {
        return Ok(());
    };
    match &named.kind {
        SpecifierKind::StructTag(tag) => declare_struct(alloc, scope, lists, named.at, tag),
        _ => Ok(()),
    }
}

/// Declares the struct's tag of a declaration `struct s;` in the innermost scope, where that hasn't
/// it (C11 6.7.2.3p7); `at` is the declaration's first token, `first` the tag's.
pub fn declare_alone(
    alloc: Global,
    scope: &mut Scope,
    lists: &TagList,
    at: u32,
    first: u32,
    tag: &[u8],
) -> Result<(), Stop>
    ensures asked { (k : Context) → let c = at_place k scope.old lists.now in
        let xs = t.more_specifiers (t.struct_tag first tag.now) t.no_specifiers in
        let asked = declaration_asks c xs t.no_init_declarators in
        MatchResult result (λ u. Meets asked) (IsRefusal asked at) }
    ensures scopes { OnOk result ((k : Context) → let c = at_place k scope.old lists.now in
        let xs = t.more_specifiers (t.struct_tag first tag.now) t.no_specifiers in
        scopes_of scope.new ≡ tags_declared c xs t.no_init_declarators) }
    ensures grown { OnOk result (IsGrown scope.old scope.new) }
{
    match scope.tag_meaning_here(tag) {
        Some(Tag::Enum) => Err(refused(3, at)),
        Some(Tag::Struct(_)) => Ok(()),
        None => {
            let number = tag_number(scope, lists, first, tag)?;
            let kept = Vec::from_slice(alloc, tag)?;
            scope.declare_tag(alloc, kept, Tag::Struct(number))?;
            Ok(())
        }
    }
}
