//! Functions with the types of their objects in a table.
ghost use Rattle.std.specs.Prelude.{◌≡◌, map, IfOk, OnOk};
ghost use Rattle.im_ctype.specs.Table.{IsGrown};
ghost use Rattle.im_check_program.specs.Known.{IsFunctionOf, AreFunctionsOf};

use crate::objects::typed_objects;
use im_check_defined::Defined;
use im_ctype::TypeTable;
use im_num::NoMemory;
use im_typed::Func;
use std::alloc::Global;

fn typed_function(alloc: Global, table: &mut TypeTable, f: Defined) -> Result<Func, NoMemory>
    ensures function { IfOk result (IsFunctionOf table.old table.new f) }
    ensures grown { OnOk result (IsGrown table.old table.new) }
{
    let objects = typed_objects(alloc, table, f.objects)?;
    Ok(Func {
        name: f.name,
        params: f.params,
        result: f.result,
        objects,
        body: f.body,
    })
}

/// The functions of a program, in their order.
pub(crate) fn typed_functions(
    alloc: Global,
    table: &mut TypeTable,
    functions: Vec<Defined>,
) -> Result<Vec<Func>, NoMemory>
    ensures functions { IfOk result (λ v. AreFunctionsOf table.old table.new functions.items v.items) }
    ensures grown { OnOk result (IsGrown table.old table.new) }
{
    let mut done = Vec::new(alloc);
    for f in functions {
        let one = typed_function(alloc, table, f)?;
        done.push(one)?;
    }
    Ok(done)
}
