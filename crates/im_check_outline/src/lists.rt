//! The member lists of a unit, in the order in which they end.
ghost use Rattle.std.specs.Prelude.{◌≡◌, ◌++◌, ◌∷◌, [], IfOk};
ghost use Rattle.im_check_name_map.specs.im_rules.Outline as o;
ghost use Rattle.im_ctree_parts.specs.Lists.{list_from, specifier_in, members_from};
ghost use Rattle.std.specs.Option.{option_map};

use im_check_name_map::TagList;
use im_ctree::{Member, Specifier, SpecifierKind};
use im_num::NoMemory;
use std::alloc::Global;

/// The member lists that stand in specifiers, behind those before.
#[cycle(lists)]
pub(crate) fn with_lists(
    alloc: Global,
    specifiers: &[Specifier],
    lists: TagList,
) -> Result<TagList, NoMemory>
    ensures { IfOk result (λ new. new ≡ lists ++ o.lists_in (list_from specifiers.now)) }
{
    let mut done = lists;
    for specifier in specifiers {
        done = with_specifier(alloc, specifier, done)?;
    }
    Ok(done)
}

#[cycle(lists)]
fn with_specifier(alloc: Global, specifier: &Specifier, lists: TagList) -> Result<TagList, NoMemory>
    ensures { IfOk result (λ new. new ≡ lists ++ o.lists_of (specifier_in specifier.now)) }
{
    match &specifier.kind {
        SpecifierKind::Struct(tag, members) => {
            let before = with_members(alloc, members, lists)?;
            with_tag(alloc, tag, before)
        }
        _ => Ok(lists),
    }
}

#[cycle(lists)]
fn with_members(alloc: Global, members: &[Member], lists: TagList) -> Result<TagList, NoMemory>
    ensures { IfOk result (λ new. new ≡ lists ++ o.lists_of_members (members_from members.now)) }
{
    let mut done = lists;
    for member in members {
        done = with_lists(alloc, &member.specifiers.items, done)?;
    }
    Ok(done)
}

fn with_tag(alloc: Global, tag: &Option<Vec<u8>>, lists: TagList) -> Result<TagList, NoMemory>
    ensures { IfOk result (λ new. new ≡ lists ++ option_map (λ name. name.items) tag.now ∷ []) }
{
    let mut done = lists;
    match tag {
        Some(name) => done.push(alloc, name)?,
        None => done.push_untagged()?,
    }
    Ok(done)
}
