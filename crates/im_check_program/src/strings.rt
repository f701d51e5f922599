//! String literals as statics (C11 6.4.5p6).
ghost use Rattle.std.specs.Prelude.{◌≡◌, ◌++◌, ◌∷◌, [], codes, decimal, map, IfOk, OnOk};
ghost use Rattle.im_ctype.specs.Table.{Table, IsGrown, structs_of};
ghost use Rattle.im_check_defined.specs.im_rules.TypedUnit as u;
ghost use Rattle.im_typed.specs.ProgramOf.{first_of};
ghost use Rattle.im_check_file_place.specs.Files.{bytes_of};
ghost use Rattle.im_check_program.specs.Known.{IsStaticOf, AreStaticsOf};

use crate::objects::typed_object;
use im_ctype::{Integer, TypeTable};
use im_num::NoMemory;
use im_typed::{Constant, Static};
use im_types::{Type, array_of};
use itoa::Buffer;
use std::alloc::Global;

/// The name of the string literal of that number.
fn text_name(alloc: Global, number: u64) -> Result<Vec<u8>, NoMemory>
    ensures { IfOk result (λ name. name.items ≡ codes "$" ++ decimal number) }
{
    let mut digits = Buffer::new();
    let mut name = Vec::new(alloc);
    name.push(b'$')?;
    name.extend_from_slice(digits.format(number).as_bytes())?;
    Ok(name)
}

fn byte_constant(byte: u8) -> Constant
    ensures { (types : Table) → first_of types result ≡ u.byte_value byte }
{
    Constant::Number(i128::from(byte))
}

/// The bytes of a string literal and a zero.
fn text_cells(alloc: Global, text: &[u8]) -> Result<Vec<Constant>, NoMemory>
    ensures { IfOk result (λ cells. (types : Table) → map (first_of types) cells.items
        ≡ map u.byte_value text.now ++ u.byte_value 0 ∷ []) }
{
    let mut cells = Vec::new(alloc);
    for byte in text {
        cells.push(byte_constant(*byte))?;
    }
    cells.push(Constant::Number(0))?;
    Ok(cells)
}

fn text_static(
    alloc: Global,
    table: &mut TypeTable,
    number: u64,
    text: &[u8],
) -> Result<Static, NoMemory>
    ensures same { IfOk result (IsStaticOf table.new
        (u.string_static (structs_of table.old) number text.now)) }
    ensures grown { OnOk result (IsGrown table.old table.new) }
{
    let bytes = text.len() as u64 + 1;
    let ty = array_of(alloc, Type::Integer(Integer::Char), bytes)?;
    let cells = text_cells(alloc, text)?;
    let name = text_name(alloc, number)?;
    let object = typed_object(table, name, &ty)?;
    Ok(Static { object, cells })
}

/// The string literals among a program's statics, numbered from 1.
pub(crate) fn text_statics(
    alloc: Global,
    table: &mut TypeTable,
    texts: &[Vec<u8>],
) -> Result<Vec<Static>, NoMemory>
    ensures same { IfOk result (λ v. AreStaticsOf table.new
        (u.string_statics (structs_of table.old) 1 (bytes_of texts.now)) v.items) }
    ensures grown { OnOk result (IsGrown table.old table.new) }
{
    let mut done = Vec::new(alloc);
    let mut number: u64 = 1;
    for text in texts {
        let one = text_static(alloc, table, number, text)?;
        done.push(one)?;
        number += 1;
    }
    Ok(done)
}
