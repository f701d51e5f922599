ghost use Rattle.std.specs.Prelude.{◌≡◌, ◌+◌, OnOk, IfOk, length, map, take};
ghost use Rattle.im_ctype.specs.Table.{IsIn, layout_of};
ghost use Rattle.im_typed.specs.ProgramOf.{object_of};
ghost use Rattle.im_lower_relation.specs.Lowered.{AreObjects, kind_of_one};
ghost use Rattle.im_lower_plain.specs.MakeStatement.{make_brace, put_parameters};
ghost use Rattle.im_lower_plain.specs.MakeUnit.{FunctionMade, HasTypes};

use crate::builder::Builder;
use crate::expressions::Base;
use crate::lines::{register_at, small};
use crate::statements::lower_statement;
use im_block::{Exit, Function, Line, Object, Place, Registers};
use im_ctype::{Cell, TypeTable, cells, size_of};
use im_num::{Kind, NoMemory, beyond_memory};
use im_typed::{Func, Prog, need, nodes};
use std::alloc::Global;

/// A function of the program as block code. `first` is the number of its first object, `accesses`
/// that of its first access. Gives the number of the access that follows, too.
pub(crate) fn lower_function(
    alloc: Global,
    func: &Func,
    is_main: bool,
    prog: &Prog,
    first: u32,
    accesses: u64,
) -> Result<(Function, u64), NoMemory>
    requires { HasTypes prog.now.types func.now.objects.items }
    ensures { IfOk result (λ made. FunctionMade prog.now func.now is_main first accesses made.0
        made.1) }
{
    let bytes = need(func);
    if bytes == u64::MAX {
        return Err(beyond_memory());
    }
    let objects = lower_objects(alloc, &func.objects, &prog.types)?;
    let base = Base {
        first,
        low: func.params,
    };
    let mut code = Builder::new(alloc, accesses);
    put_brace(&mut code, base.low, is_main)?;
    lower_statement(&mut code, &func.body, 0, 0, &objects, prog, base)?;
    put_parameters(&mut code, first, func.params, &objects)?;
    let entry = code.close()?;
    let made = code.finish();
    Ok((
        Function {
            nodes: nodes(func),
            need: bytes,
            registers: Registers::Virtual,
            register_count: made.registers,
            parameters: func.params,
            first_parameter: 0,
            first_object: first,
            objects,
            slots: 0,
            blocks: made.blocks,
            entry,
        },
        made.accesses,
    ))
}

/// Puts the brace of a function: 0 from `main` (C11 5.1.2.2.3), and no value from another one.
fn put_brace(code: &mut Builder, low: u32, is_main: bool) -> Result<(), NoMemory>
    ensures { OnOk result (code.new ≡ make_brace low is_main code.old) }
{
    if is_main {
        code.start(Exit::Return(Some(low)))?;
        code.put(Line::Put { to: low, number: 0 })
    } else {
        code.start(Exit::Return(None))
    }
}

/// Puts a write of each parameter, which comes in a register, to its object.
fn put_parameters(
    code: &mut Builder,
    first: u32,
    params: u32,
    objects: &[Object],
) -> Result<(), NoMemory>
    ensures { OnOk result (code.new ≡ put_parameters first 0 (take params objects.now) code.old) }
{
    let count = objects.len().min(params as usize);
    for index in (0..count).rev() {
        let place = Place::Local {
            object: register_at(first, index)?,
            offset: 0,
        };
        code.put_write(
            place,
            kind_of_one(&objects[index].cells),
            small(index as u64)?,
        )?;
    }
    Ok(())
}

/// The kind of a parameter, which is one cell.
fn kind_of_one(cells: &[Cell]) -> Kind
    ensures { result ≡ kind_of_one cells.now }
{
    match cells.first() {
        Some(cell) => cell.kind,
        None => Kind::I32,
    }
}

/// Objects of a function with their cells.
fn lower_objects(
    alloc: Global,
    objects: &[im_typed::Object],
    types: &TypeTable,
) -> Result<Vec<Object>, NoMemory>
    requires { HasTypes types.now objects.now }
    ensures { IfOk result (λ found. AreObjects (map (object_of types.now) objects.now)
        found.items) }
{
    let mut found = Vec::new(alloc);
    for object in objects {
        found.push(lower_object(alloc, object, types)?)?;
    }
    Ok(found)
}

/// An object with its cells.
pub(crate) fn lower_object(
    alloc: Global,
    object: &im_typed::Object,
    types: &TypeTable,
) -> Result<Object, NoMemory>
    requires { IsIn types.now object.now.ty }
    ensures size { IfOk result (λ found. found.size ≡ object.now.size) }
    ensures cells { IfOk result (λ found. found.cells.items
        ≡ (layout_of types.now object.now.ty).cells) }
{
    let _bytes = size_of(object.ty, types);
    Ok(Object {
        size: object.size,
        cells: cells(alloc, object.ty, types)?,
    })
}
