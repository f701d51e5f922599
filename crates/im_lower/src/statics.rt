ghost use Rattle.std.specs.Prelude.{◌≡◌, All, IfOk, map};
ghost use Rattle.im_block.specs.Meaning.{constant, static_of};
ghost use Rattle.im_block.specs.declared.unit.Constant.{Constant as BlockConstant};
ghost use Rattle.im_block.specs.declared.unit.Static.{Static as BlockStatic};
ghost use Rattle.im_ctype.specs.Table.{IsIn, Table};
ghost use Rattle.im_typed.specs.ProgramOf as typed;
ghost use Rattle.im_typed.specs.declared.program.Constant.{Constant as TypedConstant};
ghost use Rattle.im_typed.specs.declared.program.Static.{Static as TypedStatic};

use crate::functions::lower_object;
use im_ctype::TypeTable;
use im_num::NoMemory;
use im_typed::{Constant, Static};
use std::alloc::Global;

/// The statics of a program, with their cells and first values.
pub(crate) fn lower_statics(
    alloc: Global,
    statics: &[Static],
    types: &TypeTable,
) -> Result<Vec<im_block::Static>, NoMemory>
    requires { All (λ (s : TypedStatic). IsIn types.now s.object.ty) statics.now }
    ensures { IfOk result (λ found. map {A = BlockStatic} static_of found.items
        ≡ map (typed.static_of types.now) statics.now) }
{
    let mut found = Vec::new(alloc);
    for object in statics {
        found.push(lower_static(alloc, object, types)?)?;
    }
    Ok(found)
}

fn lower_static(
    alloc: Global,
    object: &Static,
    types: &TypeTable,
) -> Result<im_block::Static, NoMemory>
    requires { IsIn types.now object.now.object.ty }
    ensures { IfOk result (λ found. static_of found ≡ typed.static_of types.now object.now) }
{
    Ok(im_block::Static {
        name: Vec::from_slice(alloc, &object.object.name)?,
        object: lower_object(alloc, &object.object, types)?,
        values: lower_values(alloc, &object.cells)?,
    })
}

fn lower_values(alloc: Global, values: &[Constant]) -> Result<Vec<im_block::Constant>, NoMemory>
    ensures { (types : Table) → IfOk result (λ found. map {A = BlockConstant} constant found.items
        ≡ map {A = TypedConstant} (typed.first_of types) values.now) }
{
    let mut found = Vec::new(alloc);
    for value in values {
        found.push(lower_value(*value))?;
    }
    Ok(found)
}

fn lower_value(value: Constant) -> im_block::Constant
    ensures { (types : Table) → constant result ≡ typed.first_of types value }
{
    match value {
        Constant::Number(number) => im_block::Constant::Number(number),
        Constant::Null => im_block::Constant::Null,
        Constant::Inside { object, offset } => im_block::Constant::Inside { object, offset },
    }
}
