ghost use Rattle.std.specs.Prelude.{◌≡◌, ◌<◌, ◌+◌, ◌^◌, IfOk, OnOk, Some, slice_get, ℕ};
ghost use Rattle.im_ctype.specs.declared.cell.Cell.{Cell as CellOf};
ghost use Rattle.im_image.specs.Contents.{kind_code as code_of_kind};
ghost use Rattle.im_pack.specs.Objects.{added, goes_on as does_go_on, one_cell as cell_alone};
ghost use Rattle.im_pack.specs.Objects.{runs_of as cells_as_runs};

use crate::bytes::kind_size;
use im_ctype::Cell;
use im_image::CellRun;
use im_num::{Kind, NoMemory};
use std::alloc::Global;

/// The cell as a run.
fn one_cell(cell: Cell) -> CellRun
    requires { cell.offset + 1 < 2 ^ 32 }
    ensures { result ≡ cell_alone cell }
{
    CellRun {
        offset: cell.offset as u32,
        kind: cell.kind,
        count: 1,
    }
}

fn kind_code(kind: Kind) -> u32
    ensures { result ≡ code_of_kind kind }
{
    match kind {
        Kind::I8 => 0,
        Kind::U8 => 1,
        Kind::I16 => 2,
        Kind::U16 => 3,
        Kind::I32 => 4,
        Kind::U32 => 5,
        Kind::Ptr => 6,
    }
}

/// The cell goes on where the run ends, in its kind.
fn goes_on(run: CellRun, cell: Cell) -> bool
    ensures { result ≡ does_go_on run cell }
{
    cell.offset == u64::from(run.offset) + u64::from(run.count) * u64::from(kind_size(run.kind))
        && kind_code(cell.kind) == kind_code(run.kind)
}

/// Adds a cell behind those of the runs.
fn add_cell(runs: &mut Vec<CellRun>, cell: Cell) -> Result<(), NoMemory>
    requires { cell.offset + 1 < 2 ^ 32 }
    ensures { OnOk result (runs.new.items ≡ added runs.old.items cell) }
{
    let Some(last) = runs.pop() else {
        runs.push(one_cell(cell))?;
        return Ok(());
    };
    if goes_on(last, cell) {
        runs.push(CellRun {
            offset: last.offset,
            kind: last.kind,
            count: last.count + 1,
        })?;
    } else {
        runs.push(last)?;
        runs.push(one_cell(cell))?;
    }
    Ok(())
}

/// The cells of an object as runs, each as long as can be.
pub(crate) fn runs_of(alloc: Global, cells: &[Cell]) -> Result<Vec<CellRun>, NoMemory>
    requires { (i : ℕ) (c : CellOf) → slice_get cells.now i ≡ Some c → c.offset + 1 < 2 ^ 32 }
    ensures { IfOk result (λ runs. runs.items ≡ cells_as_runs cells.now) }
{
    let mut runs = Vec::new(alloc);
    for cell in cells {
        add_cell(&mut runs, *cell)?;
    }
    Ok(runs)
}
