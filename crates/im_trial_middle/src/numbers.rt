ghost use Rattle.std.specs.Prelude.{◌≡◌, true, [], ◌∷◌, ◌++◌, IfSome};
ghost use Rattle.im_block.specs.Wellformed.{accesses_of_blocks, accesses_of_line};
ghost use Rattle.im_block.specs.Wellformed.{accesses_of_lines};
ghost use Rattle.im_trial_middle.specs.Unplaced.{Leads, Rises};

use im_block::{Block, Line};

/// The number behind an access, unless that is less than a number.
fn behind_access(number: u64, access: u64) -> Option<u64>
    ensures { IfSome result (Leads number (access ∷ [])) }
{
    if access < number {
        return None;
    }
    access.checked_add(1)
}

/// The number behind a line's access, unless that is less than a number; or this, where it has
/// none.
fn behind_line(number: u64, line: &Line) -> Option<u64>
    ensures { IfSome result (Leads number (accesses_of_line line.now)) }
{
    match *line {
        Line::Read { access, .. } => behind_access(number, access),
        Line::Write { access, .. } => behind_access(number, access),
        Line::Reload { access, .. } => behind_access(number, access),
        Line::Spill { access, .. } => behind_access(number, access),
        _ => Some(number),
    }
}

fn behind_lines(number: u64, lines: &[Line]) -> Option<u64>
    ensures { IfSome result (Leads number (accesses_of_lines lines.now)) }
{
    let mut next = number;
    for line in lines {
        next = behind_line(next, line)?;
    }
    Some(next)
}

fn behind_blocks(number: u64, blocks: &[Block]) -> Option<u64>
    ensures { IfSome result (Leads number (accesses_of_blocks blocks.now)) }
{
    let mut next = number;
    for block in blocks {
        next = behind_lines(next, &block.lines)?;
    }
    Some(next)
}

/// Whether the numbers of the accesses of blocks rise from line to line.
pub(crate) fn accesses_rise(blocks: &[Block]) -> bool
    ensures { result ≡ true → Rises 0 (accesses_of_blocks blocks.now ++ []) }
{
    match behind_blocks(0, blocks) {
        Some(_) => true,
        None => false,
    }
}
