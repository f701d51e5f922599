//! Programs.
ghost use Rattle.std.specs.Prelude.{◌≡◌, IfOk, OnOk};
ghost use Rattle.im_ctype.specs.Table.{IsGrown, structs_of};
ghost use Rattle.im_check_defined.specs.im_rules.FileScope.{FilePlace, main_name};
ghost use Rattle.im_check_defined.specs.im_rules.Outline.{place_in};
ghost use Rattle.im_check_scopes.specs.Shape.{scopes_of};
ghost use Rattle.im_check_file_place.specs.Files.{bytes_of};
ghost use Rattle.im_check_defined.specs.Values.{first_values_in};
ghost use Rattle.im_check_program.specs.Known.{AreStaticsOf};
ghost use Rattle.im_check_program.specs.Programs.{all_statics, IsProgram};

use crate::functions::typed_functions;
use crate::given::names_of;
use crate::statics::typed_statics;
use crate::strings::text_statics;
use im_check_defined::{Defined, FirstValues};
use im_check_file_place::File;
use im_check_name_map::NameList;
use im_check_place::Structs;
use im_check_scopes::Scope;
use im_ctype::TypeTable;
use im_num::{NoMemory, beyond_memory};
use im_typed::{Prog, Static};
use std::alloc::Global;
use std::mem;

/// What the external declarations of a unit are typed to: what is known at its end, the first
/// values of its statics, and its functions in their order.
#[derive(Drop)]
pub struct Parts {
    pub file: File,
    pub given: Vec<FirstValues>,
    pub functions: Vec<Defined>,
}

/// The number of `main` among the functions with a body.
fn main_among(bodies: &NameList) -> Result<u32, NoMemory>
    ensures { IfOk result (λ n. n ≡ place_in main_name bodies.now) }
{
    match u32::try_from(bodies.place(b"main")) {
        Ok(number) => Ok(number),
        Err(_) => Err(beyond_memory()),
    }
}

/// The statics of a unit, objects and string literals, in their order.
fn unit_statics(
    alloc: Global,
    table: &mut TypeTable,
    scope: &Scope,
    objects: &NameList,
    texts: &[Vec<u8>],
    given: &[FirstValues],
) -> Result<Vec<Static>, NoMemory>
    ensures same { (e : FilePlace) → e.context.known ≡ structs_of table.old
        → e.context.scopes ≡ scopes_of scope.now → e.context.unit.statics ≡ objects.now
        → e.strings ≡ bytes_of texts.now
        → IfOk result (λ v. AreStaticsOf table.new (all_statics e (first_values_in given.now)) v.items) }
    ensures grown { OnOk result (IsGrown table.old table.new) }
{
    let names = names_of(alloc, given)?;
    let mut statics = typed_statics(alloc, table, scope, given, &names, objects)?;
    let mut strings = text_statics(alloc, table, texts)?;
    statics.append(&mut strings)?;
    Ok(statics)
}

/// The table of structs, of which none is left behind.
fn table_of(alloc: Global, structs: &mut Structs) -> TypeTable
    ensures { result ≡ structs.old }
{
    let taken = mem::replace(structs, Structs::new(alloc));
    taken.into_table()
}

/// The functions, of which none is left behind.
fn functions_of(alloc: Global, functions: &mut Vec<Defined>) -> Vec<Defined>
    ensures { result.items ≡ functions.old.items }
{
    mem::replace(functions, Vec::new(alloc))
}

/// The program of a unit, whose structs and functions it takes.
pub fn program(alloc: Global, parts: &mut Parts) -> Result<Prog, NoMemory>
    ensures { IfOk result (IsProgram parts.old) }
{
    let main = main_among(&parts.file.place.outline.bodies)?;
    let mut types = table_of(alloc, &mut parts.file.place.structs);
    let functions = functions_of(alloc, &mut parts.functions);
    let statics = unit_statics(
        alloc,
        &mut types,
        &parts.file.place.scope,
        &parts.file.place.outline.statics,
        &parts.file.texts,
        &parts.given,
    )?;
    let funcs = typed_functions(alloc, &mut types, functions)?;
    Ok(Prog {
        types,
        statics,
        funcs,
        main,
    })
}
