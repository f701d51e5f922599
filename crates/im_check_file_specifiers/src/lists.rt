//! Member lists (C11 6.7.2.1): what stands before their members and behind them.
ghost use Rattle.std.specs.Prelude.{◌≡◌, ◌&&◌, ◌∷◌, [], Option, IfOk, MatchResult, OnOk, not};
ghost use Rattle.std.specs.Prelude.{reverse};
ghost use Rattle.im_check_expressions.specs.im_word.Words.{Name};
ghost use Rattle.im_ctree.specs.Tree as t;
ghost use Rattle.im_rules.specs.Context.{Context};
ghost use Rattle.im_rules.specs.Declared.{tags_in};
ghost use Rattle.im_rules.specs.Demands.{Meets};
ghost use Rattle.im_rules.specs.FileScope as f;
ghost use Rattle.im_rules.specs.Rules as u;
ghost use Rattle.im_rules.specs.Scopes.{at_file_scope};
ghost use Rattle.im_check_scopes.specs.Shape.{scopes_of};
ghost use Rattle.im_check_stop.specs.Answers.{IsRefusal};
ghost use Rattle.im_check_type_specifiers.specs.Specified.{at_place};
ghost use Rattle.im_check_file_place.specs.Files.{file_place_of};
ghost use Rattle.im_check_place.specs.Fields.{fields_of};
ghost use Rattle.im_check_file_specifiers.specs.Lists.{tag_of, IsStanding, IsEnded};

use im_check_file_place::File;
use im_check_name_map::{NameList, TagList};
use im_check_place::Field;
use im_check_scopes::{Scope, Tag};
use im_check_stop::{Stop, refused};
use im_check_type_specifiers::tag_number;
use im_num::NoMemory;
use std::alloc::Global;

/// Whether the names of members differ.
fn differ(alloc: Global, fields: &[Field]) -> Result<bool, NoMemory>
    ensures { IfOk result (λ b. b ≡ u.differ (fields_of fields.now)) }
{
    let mut behind = NameList::new(alloc);
    let mut place = fields.len();
    while place > 0 {
        place -= 1;
        let name = &fields[place].name;
        if behind.contains(name) {
            return Ok(false);
        }
        behind.push(alloc, name)?;
    }
    Ok(true)
}

/// What is asked about where a member list stands, before it begins.
#[derive(Clone, Copy, Debug)]
pub struct Standing {
    /// Its tag is no enum's.
    pub is_tag_free: bool,
    /// It stands at file scope, and no list of its tag has begun before.
    pub is_first: bool,
}

fn is_no_enum(scope: &Scope, tag: &Option<Vec<u8>>) -> bool
    ensures { result ≡ f.tag_asked (scopes_of scope.now) (tag_of tag.now) }
{
    match tag {
        None => true,
        Some(name) => match scope.tag_meaning(name) {
            Some(Tag::Enum) => false,
            _ => true,
        },
    }
}

fn has_begun(begun: &NameList, tag: &Option<Vec<u8>>) -> bool
    ensures { result ≡ f.has_begun (tag_of tag.now) (reverse begun.now) }
{
    match tag {
        None => false,
        Some(name) => begun.contains(name),
    }
}

/// Whether a member list of that tag stands at file scope, and is the first one of its tag.
fn is_first(file: &File, tag: &Option<Vec<u8>>) -> bool
    ensures { let p = file_place_of file.now in result
        ≡ (at_file_scope p.context.scopes && not (f.has_begun (tag_of tag.now) p.begun)) }
{
    file.place.scope.at_file_scope() && !has_begun(&file.begun, tag)
}

/// Where a member list of that tag stands.
pub fn where_it_stands(file: &File, tag: &Option<Vec<u8>>) -> Standing
    ensures { IsStanding result (file_place_of file.now) (tag_of tag.now) }
{
    Standing {
        is_tag_free: is_no_enum(&file.place.scope, tag),
        is_first: is_first(file, tag),
    }
}

/// A member list may stand there, with these members.
pub fn may_list(alloc: Global, standing: Standing, at: u32, fields: &[Field]) -> Result<(), Stop>
    ensures { (p : f.FilePlace) (x : Option Name) → IsStanding standing p x
        → let asked = f.struct_asks p x (fields_of fields.now) in
        MatchResult result (λ _. Meets asked) (IsRefusal asked at) }
{
    if !standing.is_tag_free {
        return Err(refused(3, at));
    }
    if !standing.is_first || !differ(alloc, fields)? {
        return Err(refused(7, at));
    }
    Ok(())
}

/// Declares a struct's tag that isn't in scope.
fn declare_tag(
    alloc: Global,
    scope: &mut Scope,
    lists: &TagList,
    at: u32,
    tag: &[u8],
) -> Result<(), NoMemory>
    ensures { OnOk result ((k : Context) → scopes_of scope.new
        ≡ tags_in (at_place k scope.old lists.now) (t.struct_tag at tag.now ∷ [])) }
{
    if scope.tag_meaning(tag).is_some() {
        return Ok(());
    }
    let number = tag_number(scope, lists, at, tag)?;
    let kept = Vec::from_slice(alloc, tag)?;
    scope.declare_tag(alloc, kept, Tag::Struct(number))
}

/// Begins a member list whose struct's first token is that one: its tag is in scope in it.
pub fn begin(alloc: Global, at: u32, tag: &Option<Vec<u8>>, file: &mut File) -> Result<(), NoMemory>
    ensures { OnOk result (file_place_of file.new
        ≡ f.with_list_begun at (tag_of tag.now) (file_place_of file.old)) }
{
    match tag {
        None => Ok(()),
        Some(name) => {
            declare_tag(
                alloc,
                &mut file.place.scope,
                &file.place.outline.lists,
                at,
                name,
            )?;
            file.begun.push(alloc, name)
        }
    }
}

/// Ends a member list: gives the number of its struct.
pub fn end(alloc: Global, fields: &[Field], file: &mut File) -> Result<u32, NoMemory>
    ensures { MatchResult result
        (λ n. IsEnded (file_place_of file.old) (fields_of fields.now) n (file_place_of file.new))
        (λ _. Unit {0}) }
{
    file.place.structs.add(alloc, fields)
}
