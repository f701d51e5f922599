ghost use Rattle.std.specs.Prelude.{◌≡◌, ◌==◌, IfOk, Some, length};
ghost use Rattle.im_cut_gap.specs.Starts.{AreBlank, AreStarts, RaisedWhere, greater as greater_of};
ghost use Rattle.im_cut_gap.specs.Starts.{is_turned, leads_to, turn_cost, turns_to};

use crate::lines::leave_cost;
use im_block::{Block, Exit, Function};
use im_num::NoMemory;
use std::alloc::Global;

/// For each block the greatest cost of a path to its start, as far as it is known before the sweep:
/// sections begin at the entry, and before each loop edge.
pub(crate) fn start_costs(alloc: Global, function: &Function) -> Result<Vec<Option<u32>>, NoMemory>
    ensures starts { IfOk result (λ costs. AreStarts function.now.entry function.now.blocks.items costs.items) }
    ensures len { IfOk result (λ costs. length costs.items ≡ length function.now.blocks.items) }
{
    let mut costs = blank_costs(alloc, function.blocks.len())?;
    reach(&mut costs, function.entry, Some(0));
    reach_turned(&mut costs, &function.blocks);
    Ok(costs)
}

/// Costs of so many places that no path comes to.
fn blank_costs(alloc: Global, count: usize) -> Result<Vec<Option<u32>>, NoMemory>
    ensures blank { IfOk result (λ costs. AreBlank costs.items) }
    ensures len { IfOk result (λ costs. length costs.items ≡ count) }
{
    let mut costs = Vec::new(alloc);
    'places: while costs.len() < count {
        costs.push(None)?;
    }
    Ok(costs)
}

fn reach_turned(costs: &mut Vec<Option<u32>>, blocks: &[Block])
    ensures raises { RaisedWhere (is_turned blocks.now) (Some turn_cost) costs.old.items costs.new.items }
    ensures len { length costs.new.items ≡ length costs.old.items }
{
    for block in blocks {
        reach_behind(costs, block.exit);
    }
}

/// A loop edge is cut, so behind it only the edge itself has been paid.
fn reach_behind(costs: &mut Vec<Option<u32>>, exit: Exit)
    ensures raises { RaisedWhere (turns_to exit) (Some turn_cost) costs.old.items costs.new.items }
    ensures len { length costs.new.items ≡ length costs.old.items }
{
    match exit {
        Exit::Turn(to) => reach(costs, to, Some(leave_cost(exit))),
        Exit::Jump(_) => {}
        Exit::Branch { .. } => {}
        Exit::Return(_) => {}
    }
}

/// Paths of this cost come from a block's exit to the blocks that it leads to.
pub(crate) fn hand_on(costs: &mut Vec<Option<u32>>, exit: Exit, end: Option<u32>)
    ensures raises { RaisedWhere (leads_to exit) end costs.old.items costs.new.items }
    ensures len { length costs.new.items ≡ length costs.old.items }
{
    match exit {
        Exit::Jump(to) => reach(costs, to, end),
        Exit::Branch { holds, fails, .. } => {
            reach(costs, holds, end);
            reach(costs, fails, end);
        }
        Exit::Turn(_) => {}
        Exit::Return(_) => {}
    }
}

/// Paths of this cost come to one block.
fn reach(costs: &mut Vec<Option<u32>>, number: u32, cost: Option<u32>)
    ensures raises { RaisedWhere (λ c. number == c) cost costs.old.items costs.new.items }
    ensures len { length costs.new.items ≡ length costs.old.items }
{
    let place = number as usize;
    if place >= costs.len() {
        return;
    }
    let highest = &mut costs[place];
    *highest = greater(*highest, cost);
}

fn greater(one: Option<u32>, other: Option<u32>) -> Option<u32>
    ensures { result ≡ greater_of one other }
{
    match (one, other) {
        (None, _) => other,
        (Some(_), None) => one,
        (Some(ours), Some(theirs)) => { if ours <= theirs { other } else { one } }
    }
}
