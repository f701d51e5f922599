//! Statics with their first values (C11 6.7.9p10).
ghost use Rattle.std.specs.Prelude.{◌≡◌, Some, map, slice_get, IfOk, OnOk};
ghost use Rattle.im_check_defined.specs.im_word.Words.{Name};
ghost use Rattle.im_ctype.specs.Table.{IsGrown, structs_of};
ghost use Rattle.im_check_defined.specs.im_rules.FileScope.{FilePlace};
ghost use Rattle.im_check_defined.specs.im_rules.TypedUnit as u;
ghost use Rattle.im_check_scopes.specs.Shape.{scopes_of};
ghost use Rattle.im_check_defined.specs.Values.{first_values_in};
ghost use Rattle.im_check_program.specs.Given.{names_given};
ghost use Rattle.im_check_program.specs.Known.{IsStaticOf, AreStaticsOf};

use crate::given::first_values;
use crate::objects::typed_object;
use im_check_defined::FirstValues;
use im_check_name_map::NameList;
use im_check_scopes::{Entity, Scope};
use im_ctype::TypeTable;
use im_num::{NoMemory, beyond_memory};
use im_typed::Static;
use std::alloc::Global;

/// The static of that name. A name that means no object, which no static's does, is answered by
/// want of memory.
fn typed_static(
    alloc: Global,
    table: &mut TypeTable,
    scope: &Scope,
    given: &[FirstValues],
    names: &NameList,
    name: &[u8],
) -> Result<Static, NoMemory>
    requires { names.now ≡ names_given given.now }
    ensures same { (e : FilePlace) → e.context.known ≡ structs_of table.old
        → e.context.scopes ≡ scopes_of scope.now
        → IfOk result (IsStaticOf table.new
        (u.static_named e (first_values_in given.now) name.now)) }
    ensures grown { OnOk result (IsGrown table.old table.new) }
{
    let Some(Entity::Object(_, ty, _)) = scope.meaning(name) else {
        return Err(beyond_memory());
    };
    let cells = first_values(alloc, table, given, names, name, ty)?;
    let name = Vec::from_slice(alloc, name)?;
    let object = typed_object(table, name, ty)?;
    Ok(Static { object, cells })
}

/// The static of that number in the outline.
fn numbered_static(
    alloc: Global,
    table: &mut TypeTable,
    scope: &Scope,
    given: &[FirstValues],
    names: &NameList,
    statics: &NameList,
    number: usize,
) -> Result<Static, NoMemory>
    requires { names.now ≡ names_given given.now }
    ensures same { (e : FilePlace) (x : Name) → e.context.known ≡ structs_of table.old
        → e.context.scopes ≡ scopes_of scope.now
        → slice_get statics.now number ≡ Some x
        → IfOk result (IsStaticOf table.new (u.static_named e (first_values_in given.now) x)) }
    ensures grown { OnOk result (IsGrown table.old table.new) }
{
    match statics.get(number) {
        None => Err(beyond_memory()),
        Some(name) => typed_static(alloc, table, scope, given, names, name),
    }
}

/// The objects among a program's statics, in their order.
pub(crate) fn typed_statics(
    alloc: Global,
    table: &mut TypeTable,
    scope: &Scope,
    given: &[FirstValues],
    names: &NameList,
    statics: &NameList,
) -> Result<Vec<Static>, NoMemory>
    requires { names.now ≡ names_given given.now }
    ensures same { (e : FilePlace) → e.context.known ≡ structs_of table.old
        → e.context.scopes ≡ scopes_of scope.now
        → IfOk result (λ v. AreStaticsOf table.new
        (map (u.static_named e (first_values_in given.now)) statics.now) v.items) }
    ensures grown { OnOk result (IsGrown table.old table.new) }
{
    let mut done = Vec::new(alloc);
    for number in 0..statics.len() {
        let one = numbered_static(alloc, table, scope, given, names, statics, number)?;
        done.push(one)?;
    }
    Ok(done)
}
