//! The type that specifiers name (C11 6.7.2).
ghost use Rattle.std.specs.Prelude.{◌≡◌, ◌≤◌, ℕ, ◌∷◌, [], List, length, Option, MatchOption, IfErr};
ghost use Rattle.im_ctree.specs.Tree as t;
ghost use Rattle.im_ctree.specs.declared.specifier.SpecifierWord.{SpecifierWord};
ghost use Rattle.im_check_scopes.specs.im_word.Words.{Name};
ghost use Rattle.im_check_scopes.specs.im_rules.Context.{Context};
ghost use Rattle.im_check_scopes.specs.im_rules.Declared as d;
ghost use Rattle.im_check_scopes.specs.im_rules.Rules as u;
ghost use Rattle.im_check_stop.specs.declared.stop.Stop.TheVariants.{Memory};
ghost use Rattle.im_ctree_parts.specs.Lists.{list_from, specifier_in};
ghost use Rattle.im_types.specs.Shape.{type_of};
ghost use Rattle.im_check_type_specifiers.specs.Lines.{word_type_of};
ghost use Rattle.im_check_type_specifiers.specs.Specified.{at_place, IsQualified, IsFirst, IsNamed};
ghost use Rattle.im_check_type_specifiers.specs.Specified.{qualified_of, base_of, file_asks};

use crate::line::{WordType, line_of};
use crate::qualified::Qualified;
use crate::tags::tag_number;
use crate::words::{counts_of, has_const, is_named, keyword_count, named_count, storage_count};
use im_check_name_map::TagList;
use im_check_scopes::{Entity, Scope, Tag};
use im_check_stop::{Stop, refused};
use im_ctree::{Specifier, SpecifierKind};
use im_ctype::Integer;
use im_types::{Type, copy};
use std::alloc::Global;

/// The first struct, enum or typedef name.
pub fn first_named(specifiers: &[Specifier]) -> Option<&Specifier>
    ensures { MatchOption result (u.named_in (list_from specifiers.now) ≡ [])
        (λ s. IsFirst s.now (u.named_in (list_from specifiers.now))) }
{
    for specifier in specifiers {
        if is_named(specifier) {
            return Some(specifier);
        }
    }
    None
}

fn typedef_type(alloc: Global, scope: &Scope, at: u32, name: &[u8]) -> Result<Qualified, Stop>
    ensures { (k : Context) (lists : List (Option Name)) (first : ℕ) (ks : List SpecifierWord)
        → let c = at_place k scope.now lists in
        let named = t.typedef_specifier first name.now ∷ [] in
        IsQualified (d.specified_asks c named) (d.specified c named ks) at result }
{
    match scope.meaning(name) {
        Some(Entity::Typedef(constant, ty)) => Ok(Qualified {
            constant: *constant,
            ty: copy(alloc, ty)?,
        }),
        _ => Err(refused(18, at)),
    }
}

fn enum_type(scope: &Scope, at: u32, tag: &[u8]) -> Result<Qualified, Stop>
    ensures typed { (k : Context) (lists : List (Option Name)) (first : ℕ) (ks : List SpecifierWord)
        → let c = at_place k scope.now lists in
        let named = t.enum_tag first tag.now ∷ [] in
        IsQualified (d.specified_asks c named) (d.specified c named ks) at result }
    ensures spared { IfErr result (λ stop. stop ≡ Memory → ⊥) }
{
    match scope.tag_meaning(tag) {
        Some(Tag::Enum) => Ok(Qualified {
            constant: false,
            ty: Type::Integer(Integer::Int),
        }),
        _ => Err(refused(8, at)),
    }
}

fn struct_type(
    scope: &Scope,
    lists: &TagList,
    at: u32,
    first: u32,
    tag: &[u8],
) -> Result<Qualified, Stop>
    ensures { (k : Context) (ks : List SpecifierWord)
        → let c = at_place k scope.now lists.now in
        let named = t.struct_tag first tag.now ∷ [] in
        IsQualified (d.specified_asks c named) (d.specified c named ks) at result }
{
    match scope.tag_meaning(tag) {
        Some(Tag::Enum) => Err(refused(3, at)),
        Some(Tag::Struct(number)) => Ok(Qualified {
            constant: false,
            ty: Type::Struct(number),
        }),
        None => Ok(Qualified {
            constant: false,
            ty: Type::Struct(tag_number(scope, lists, first, tag)?),
        }),
    }
}

/// The type of a typedef name or a tag. A list of members or enumerators is refused.
fn named_type(
    alloc: Global,
    scope: &Scope,
    lists: &TagList,
    at: u32,
    named: &Specifier,
) -> Result<Qualified, Stop>
    requires { IsNamed named.now }
    ensures { (k : Context) (ks : List SpecifierWord)
        → let c = at_place k scope.now lists.now in
        let all = specifier_in named.now ∷ [] in
        IsQualified (d.specified_asks c all) (d.specified c all ks) at result }
{
    match &named.kind {
        SpecifierKind::TypedefName(name) => typedef_type(alloc, scope, at, name),
        SpecifierKind::EnumTag(tag) => enum_type(scope, at, tag),
        SpecifierKind::StructTag(tag) => struct_type(scope, lists, at, named.at, tag),
        SpecifierKind::Enum(_, _) => Err(refused(8, at)),
        SpecifierKind::Struct(_, _) => Err(refused(7, at)),
        SpecifierKind::Word(_) => unreachable!(),
    }
}

fn type_of_word(word: WordType) -> Type
    ensures { type_of result ≡ word_type_of word }
{
    match word {
        WordType::Void => Type::Void,
        WordType::Integer(i) => Type::Integer(i),
    }
}

fn word_type(at: u32, specifiers: &[Specifier]) -> Result<Qualified, Stop>
    requires none { u.named_in (list_from specifiers.now) ≡ [] }
    requires few { length (u.storage_in (list_from specifiers.now)) ≤ 1 }
    ensures typed { (c : Context) → IsQualified (file_asks c (list_from specifiers.now))
        (base_of c (list_from specifiers.now)) at result }
    ensures spared { IfErr result (λ stop. stop ≡ Memory → ⊥) }
{
    match line_of(counts_of(specifiers)) {
        Some(word) => Ok(Qualified {
            constant: false,
            ty: type_of_word(word),
        }),
        None => Err(refused(1, at)),
    }
}

fn with_const(constant: bool, q: Qualified) -> Qualified
    ensures { qualified_of result ≡ d.with_const constant (qualified_of q) }
{
    Qualified {
        constant: constant || q.constant,
        ty: q.ty,
    }
}

fn base_type(
    alloc: Global,
    scope: &Scope,
    lists: &TagList,
    at: u32,
    specifiers: &[Specifier],
) -> Result<Qualified, Stop>
    requires { length (u.storage_in (list_from specifiers.now)) ≤ 1 }
    ensures { (k : Context) → let c = at_place k scope.now lists.now in
        let xs = list_from specifiers.now in
        IsQualified (file_asks c xs) (base_of c xs) at result }
{
    match first_named(specifiers) {
        None => word_type(at, specifiers),
        Some(named) => {
            if named_count(specifiers) != 1 {
                return Err(refused(1, at));
            }
            if keyword_count(specifiers) != 0 {
                return Err(refused(1, at));
            }
            named_type(alloc, scope, lists, at, named)
        }
    }
}

/// The type that specifiers without lists of members or enumerators name, where storage words may
/// stand among them; `at` is their first token.
pub fn type_at_file(
    alloc: Global,
    scope: &Scope,
    lists: &TagList,
    at: u32,
    specifiers: &[Specifier],
) -> Result<Qualified, Stop>
    ensures { (k : Context) → let c = at_place k scope.now lists.now in
        let xs = list_from specifiers.now in
        IsQualified (file_asks c xs) (d.type_of_specifiers c xs) at result }
{
    if storage_count(specifiers) > 1 {
        return Err(refused(1, at));
    }
    let base = base_type(alloc, scope, lists, at, specifiers)?;
    Ok(with_const(has_const(specifiers), base))
}

/// The type that specifiers name in a block, a parameter or a type name; `at` is their first token.
pub fn specified_type(
    alloc: Global,
    scope: &Scope,
    lists: &TagList,
    at: u32,
    specifiers: &[Specifier],
) -> Result<Qualified, Stop>
    ensures { (k : Context) → let c = at_place k scope.now lists.now in
        let xs = list_from specifiers.now in
        IsQualified (d.specifiers_ask c xs) (d.type_of_specifiers c xs) at result }
{
    if storage_count(specifiers) > 0 {
        return Err(refused(2, at));
    }
    type_at_file(alloc, scope, lists, at, specifiers)
}
