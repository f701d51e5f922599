ghost use Rattle.std.specs.Prelude.{◌≡◌, ◌<◌, ◌+◌, ◌^◌, IfOk, length, suc};
ghost use Rattle.im_alloc_intervals.specs.Tables.{ArePlaces};

use im_block::{Block, Line};
use im_num::{NoMemory, beyond_memory};
use std::alloc::Global;

/// The position behind a block's exit. Positions that pass 64 bits count as want of memory: so many
/// lines have no room.
fn behind(start: u64, lines: &[Line]) -> Result<u64, NoMemory>
    ensures sum { IfOk result (λ next. next ≡ start + suc (length lines.now)) }
    ensures small { IfOk result (λ next. next < 2 ^ 64) }
{
    match start.checked_add(lines.len() as u64 + 1) {
        Some(next) => Ok(next),
        None => Err(beyond_memory()),
    }
}

/// The position of each block's first line: lines and exits are numbered from the last block on.
pub(crate) fn places(alloc: Global, blocks: &[Block]) -> Result<Vec<u64>, NoMemory>
    ensures { IfOk result (λ places. ArePlaces blocks.now places.items) }
{
    let mut places: Vec<u64> = vec![in alloc; 0; blocks.len()]?;
    let mut next = 0;
    let mut left = blocks.len();
    while left > 0 {
        left -= 1;
        places[left] = next;
        next = behind(next, &blocks[left].lines)?;
    }
    Ok(places)
}
