ghost use Rattle.std.specs.Prelude.{◌≡◌, ◌≤◌, IfOk};
ghost use Rattle.im_block.specs.Shape.{narrowing, with_cut};
ghost use Rattle.im_cut_gap.specs.Costs.{leave_cost as cost_of_exit};
ghost use Rattle.im_cut_gap.specs.Sweep.{is_cut, Puts, SweepLines, SweepsLine};

use im_block::{Exit, Line};
use im_num::{Cause, Kind, NoMemory};
use std::alloc::Global;

/// The lines of a block with the cuts that are due, and the greatest cost of a path behind its
/// exit, by that at its start.
pub(crate) fn cut_lines(
    alloc: Global,
    lines: &[Line],
    exit: Exit,
    start: Option<u32>,
    most: u32,
) -> Result<(Vec<Line>, Option<u32>), NoMemory>
    requires enough { 8 ≤ most }
    ensures { IfOk result (λ r. SweepLines most exit start lines.now r.0.items r.1) }
{
    let mut cut = Vec::new(alloc);
    let mut cost = start;
    for line in lines {
        cost = cut_line(&mut cut, line, cost, most)?;
    }
    let end = spend(&mut cut, leave_cost(exit), cost, most)?;
    Ok((cut, end))
}

/// One line, behind its cut if one is due, and the cost behind it.
fn cut_line(
    cut: &mut Vec<Line>,
    line: &Line,
    cost: Option<u32>,
    most: u32,
) -> Result<Option<u32>, NoMemory>
    requires enough { 8 ≤ most }
    ensures { IfOk result (λ spent. SweepsLine most cost spent line.now cut.old.items cut.new.items) }
{
    if is_checkpoint(line) {
        cut.push(*line)?;
        return Ok(Some(0));
    }
    let spent = spend(cut, line_cost(line), cost, most)?;
    cut.push(*line)?;
    Ok(spent)
}

/// The cost behind the next line or exit. Where it would be more than `most`, a cut is put before
/// that.
fn spend(
    cut: &mut Vec<Line>,
    step: u32,
    cost: Option<u32>,
    most: u32,
) -> Result<Option<u32>, NoMemory>
    requires small { step ≤ most }
    ensures { IfOk result (λ spent. Puts most step cost spent cut.old.items cut.new.items) }
{
    match cost {
        None => Ok(None),
        Some(so_far) => {
            if so_far > most - step {
                cut.push(Line::Cut(Cause::Gap))?;
                return Ok(Some(step));
            }
            Ok(Some(so_far + step))
        }
    }
}

fn is_checkpoint(line: &Line) -> bool
    ensures { result ≡ is_cut line.now }
{
    matches!(line, Line::Cut(_))
}

/// The words of a line, and one for a cut before it.
fn line_cost(line: &Line) -> u32
    ensures cost { result ≡ with_cut line.now }
    ensures few { result ≤ 5 }
{
    match *line {
        Line::Cut(_) => 0,
        Line::PutNull { .. } | Line::Copy { .. } | Line::Not { .. } => 2,
        Line::Unary { kind, .. } => 2 + narrowing_words(kind),
        Line::Compute { kind, .. } => 2 + narrowing_words(kind),
        Line::Put { .. } | Line::Convert { .. } | Line::Compare { .. } => 3,
        Line::Call { .. } | Line::Serve { .. } => 3,
        Line::Address { .. } | Line::Read { .. } | Line::Write { .. } => 4,
        Line::Reload { .. } | Line::Spill { .. } => 4,
        Line::Move { .. } | Line::Distance { .. } => 5,
    }
}

/// The words that bring a result into a kind.
fn narrowing_words(kind: Kind) -> u32
    ensures words { result ≡ narrowing kind }
    ensures few { result ≤ 2 }
{
    match kind {
        Kind::I8 | Kind::U8 | Kind::I16 | Kind::U16 => 2,
        Kind::I32 | Kind::U32 | Kind::Ptr => 0,
    }
}

/// The words of an exit, and one for a cut before it.
pub(crate) fn leave_cost(exit: Exit) -> u32
    ensures cost { result ≡ cost_of_exit exit }
    ensures few { result ≤ 8 }
{
    match exit {
        Exit::Jump(_) => 2,
        Exit::Turn(_) => 2,
        Exit::Branch { .. } => 4,
        Exit::Return(_) => 8,
    }
}
