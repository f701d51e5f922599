//! Statics and bodies by their names.
ghost use Rattle.std.specs.Prelude.{◌≡◌, ◌&&◌, ◌||◌, IfOk, List, map, [], ◌∷◌, ◌++◌};
ghost use Rattle.im_check_name_map.specs.im_word.Words.{Name};
ghost use Rattle.im_check_name_map.specs.im_rules.Outline as o;
ghost use Rattle.im_check_outline.specs.Walked.{outlined_of, sort_of, object_names, HasObjects};

use crate::item::{Item, Sort};
use im_check_name_map::NameList;
use im_num::NoMemory;
use std::alloc::Global;

fn is_object(sort: Sort) -> bool
    ensures { result ≡ o.is_object_sort (sort_of sort) }
{
    match sort {
        Sort::Object => true,
        Sort::Type | Sort::Function => false,
    }
}

fn defines(item: &Item) -> bool
    ensures { result ≡ o.defines (outlined_of item.now) }
{
    match item.sort {
        Sort::Type => false,
        Sort::Object => !item.is_extern || item.is_whole,
        Sort::Function => item.is_whole,
    }
}

fn defines_object(item: &Item) -> bool
    ensures { result ≡ o.defines_an_object (outlined_of item.now) }
{
    is_object(item.sort) && defines(item)
}

fn defines_function(item: &Item) -> bool
    ensures { result ≡ o.defines_a_function (outlined_of item.now) }
{
    !is_object(item.sort) && defines(item)
}

fn with_object(alloc: Global, item: &Item, done: NameList) -> Result<NameList, NoMemory>
    ensures { IfOk result (λ v. (rest : List o.Outlined)
        → done ++ object_names (outlined_of item.now ∷ rest) ≡ v ++ object_names rest) }
{
    let mut done = done;
    if defines_object(item) {
        done.push(alloc, &item.name)?;
    }
    Ok(done)
}

/// The names of the defined objects, as often as they are defined.
fn objects(alloc: Global, items: &[Item]) -> Result<NameList, NoMemory>
    ensures { IfOk result (λ v. v ≡ object_names (map outlined_of items.now)) }
{
    let mut done = NameList::new(alloc);
    for item in items {
        done = with_object(alloc, item, done)?;
    }
    Ok(done)
}

fn with_static(
    alloc: Global,
    defined: &NameList,
    item: &Item,
    done: NameList,
) -> Result<NameList, NoMemory>
    ensures { IfOk result (λ v. (all rest : List o.Outlined)
        → HasObjects defined.now all
        → o.objects_among all done (outlined_of item.now ∷ rest) ≡ o.objects_among all v rest) }
{
    let mut done = done;
    if is_object(item.sort) && defined.contains(&item.name) {
        done.add(alloc, &item.name)?;
    }
    Ok(done)
}

/// The defined objects, in the order of their first declaration.
pub(crate) fn statics_among(alloc: Global, items: &[Item]) -> Result<NameList, NoMemory>
    ensures { IfOk result (λ v. v
        ≡ o.objects_among (map outlined_of items.now) [] (map outlined_of items.now)) }
{
    let defined = objects(alloc, items)?;
    let mut done = NameList::new(alloc);
    for item in items {
        done = with_static(alloc, &defined, item, done)?;
    }
    Ok(done)
}

fn with_body(alloc: Global, item: &Item, done: NameList) -> Result<NameList, NoMemory>
    ensures { IfOk result (λ v. (rest : List o.Outlined)
        → done ++ o.bodies_among (outlined_of item.now ∷ rest) ≡ v ++ o.bodies_among rest) }
{
    let mut done = done;
    if defines_function(item) {
        done.push(alloc, &item.name)?;
    }
    Ok(done)
}

/// The functions with a body, in order.
pub(crate) fn bodies_among(alloc: Global, items: &[Item]) -> Result<NameList, NoMemory>
    ensures { IfOk result (λ v. v ≡ o.bodies_among (map outlined_of items.now)) }
{
    let mut done = NameList::new(alloc);
    for item in items {
        done = with_body(alloc, item, done)?;
    }
    Ok(done)
}
