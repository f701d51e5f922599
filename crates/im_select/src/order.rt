ghost use Rattle.std.specs.Prelude.{◌≡◌, ◌<◌, ◌≤◌, ◌+◌, ◌^◌, All, drop, length, IfOk};
ghost use Rattle.im_select.specs.Emitted.{laid_order, next_label};

use im_num::NoMemory;
use std::alloc::Global;

/// The numbers of so many blocks in the order in which they are laid: the entry, then the others,
/// from the last to the first.
pub(crate) fn laid_order(alloc: Global, entry: u32, count: u32) -> Result<Vec<u32>, NoMemory>
    ensures { IfOk result (λ order. order.items ≡ laid_order entry count) }
{
    let mut order = Vec::new(alloc);
    order.push(entry)?;
    for number in (0..count).rev() {
        if number != entry {
            order.push(number)?;
        }
    }
    Ok(order)
}

/// The label of the block behind a place of the order.
pub(crate) fn label_behind(first_block: u32, order: &[u32], place: usize) -> Option<u32>
    requires there { place < length order.now }
    requires small { All (λ b. first_block + b < 2 ^ 32) order.now }
    ensures { result ≡ next_label first_block (drop (place + 1) order.now) }
{
    if place + 1 < order.len() {
        Some(first_block + order[place + 1])
    } else {
        None
    }
}
