ghost use Rattle.std.specs.Prelude.{◌≡◌, ◌<◌, ℕ, get_or, length, None, IfOk};
ghost use Rattle.im_store.specs.Objects.{kind_at};
ghost use Rattle.im_eval_store.specs.Plans.{kind_from};

use im_ctype::Cell;
use im_num::{Kind, NoMemory};
use std::alloc::Global;

/// How each object of a declaration lies in memory.
#[derive(Debug, Drop)]
pub struct Plan {
    /// Bytes.
    pub size: u32,
    /// The kind of the cell at each offset that has one.
    pub kinds: Vec<Option<Kind>>,
}

impl Plan {
    /// The plan of an object of so many bytes with these cells.
    pub fn new(alloc: Global, size: u32, cells: &[Cell]) -> Result<Plan, NoMemory>
        ensures size { IfOk result (λ plan. plan.size ≡ size) }
        ensures kinds { IfOk result (λ plan. (i : ℕ)
            → get_or plan.kinds.items i None ≡ kind_at cells.now i) }
    {
        let mut kinds = Vec::new(alloc);
        let mut left = cells.len();
        while left > 0 {
            left -= 1;
            set_kind(&mut kinds, cells[left])?;
        }
        Ok(Plan { size, kinds })
    }

    /// The kind of the cell at an offset.
    pub fn kind(&self, offset: u64) -> Option<Kind>
        ensures { result ≡ get_or self.now.kinds.items offset None }
    {
        match self.kinds.get(offset as usize) {
            None => None,
            Some(kind) => *kind,
        }
    }
}

/// Room for a cell at an offset.
fn grow(kinds: &mut Vec<Option<Kind>>, offset: u64) -> Result<(), NoMemory>
    ensures room { IfOk result (λ done. offset < length kinds.new.items) }
    ensures same { (i : ℕ) → get_or kinds.new.items i None ≡ get_or kinds.old.items i None }
{
    'grow: while kinds.len() as u64 <= offset {
        kinds.push(None)?;
    }
    Ok(())
}

/// A cell stands at its offset.
fn set_kind(kinds: &mut Vec<Option<Kind>>, cell: Cell) -> Result<(), NoMemory>
    ensures { IfOk result (λ done. (i : ℕ) → get_or kinds.new.items i None
        ≡ kind_from cell (get_or kinds.old.items i None) i) }
{
    grow(kinds, cell.offset)?;
    kinds[cell.offset as usize] = Some(cell.kind);
    Ok(())
}
