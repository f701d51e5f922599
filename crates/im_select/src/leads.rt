ghost use Rattle.std.specs.Prelude.{◌≡◌, ◌<◌, ◌≤◌, ◌^◌, All, IfOk, IfSome, length, slice_index};
ghost use Rattle.im_block.specs.Wellformed.{ExitThere};
ghost use Rattle.im_select_relation.specs.Jumps.{jump_of, jumps_in, are_few};
ghost use Rattle.im_select.specs.Leads.{onward_to, led, kept, lead_as, AreLeads};

use im_block::{Block, Exit, Function};
use im_num::NoMemory;
use std::alloc::Global;

/// Where a block jumps that has no line.
fn jump_of(block: &Block) -> Option<u32>
    ensures { result ≡ jump_of block.now.lines.items block.now.exit }
{
    if !block.lines.is_empty() {
        return None;
    }
    match block.exit {
        Exit::Jump(to) => Some(to),
        _ => None,
    }
}

/// How many of the blocks have no line but their jump.
fn jumps_in(blocks: &[Block]) -> usize
    ensures value { result ≡ jumps_in blocks.now }
    ensures most { result ≤ length blocks.now }
{
    let mut count = 0;
    for block in blocks {
        if jump_of(block).is_some() {
            count += 1;
        }
    }
    count
}

/// Whether those are few beside the others, so that a run takes few steps for the words of its
/// code.
fn are_few(blocks: &[Block]) -> bool
    ensures { result ≡ are_few blocks.now }
{
    let jumps = jumps_in(blocks);
    jumps / 16 <= blocks.len() - jumps
}

/// To which block of a lower number a block leads on that jumps so. The entry leads on to none.
fn onward_to(entry: u32, number: u32, jump: Option<u32>) -> Option<u32>
    ensures value { result ≡ onward_to entry number jump }
    ensures below { IfSome result (λ to. to < number) }
{
    match jump {
        Some(to) => {
            if to < number && number != entry {
                return Some(to);
            }
            None
        }
        None => None,
    }
}

/// Where a block leads, by where those of lower numbers do.
fn lead_of(leads: &[u32], few: bool, entry: u32, number: u32, block: &Block) -> u32
    requires { number ≤ length leads.now }
    ensures { result ≡ lead_as few (slice_index leads.now) entry number block.now }
{
    if !few {
        return number;
    }
    match onward_to(entry, number, jump_of(block)) {
        Some(to) => leads[to as usize],
        None => number,
    }
}

/// Where each block leads: to itself, unless it only leads on, by a jump to a block of a lower
/// number.
pub(crate) fn leads_of(alloc: Global, function: &Function) -> Result<Vec<u32>, NoMemory>
    requires { length function.now.blocks.items < 2 ^ 32 }
    ensures { IfOk result (λ leads. AreLeads function.now leads.items) }
{
    let few = are_few(&function.blocks);
    let mut leads = Vec::new(alloc);
    for number in 0..function.blocks.len() {
        let block = &function.blocks[number];
        let lead = lead_of(&leads, few, function.entry, number as u32, block);
        leads.push(lead)?;
    }
    Ok(leads)
}

/// An exit to where the blocks lead to which it goes.
pub(crate) fn led(leads: &[u32], exit: Exit) -> Exit
    requires { ExitThere (length leads.now) exit }
    ensures { result ≡ led (slice_index leads.now) exit }
{
    match exit {
        Exit::Jump(to) => Exit::Jump(leads[to as usize]),
        Exit::Turn(to) => Exit::Turn(leads[to as usize]),
        Exit::Branch { on, holds, fails } => Exit::Branch {
            on,
            holds: leads[holds as usize],
            fails: leads[fails as usize],
        },
        Exit::Return(_) => exit,
    }
}

/// Those of these blocks that lead to themselves.
pub(crate) fn kept(alloc: Global, leads: &[u32], order: &[u32]) -> Result<Vec<u32>, NoMemory>
    requires { All (λ b. b < length leads.now) order.now }
    ensures { IfOk result (λ those. those.items ≡ kept (slice_index leads.now) order.now) }
{
    let mut those = Vec::new(alloc);
    for place in 0..order.len() {
        let block = order[place];
        if leads[block as usize] == block {
            those.push(block)?;
        }
    }
    Ok(those)
}
