use crate::machines::{image_of, loaded, tell_variables};
use crate::sections::once;
use im_emu::Machine;
use im_image::Image;
use im_mem_paged::PagedMem;
use im_rv::Went;
use im_trial::{Case, Row, Stop, Texts};
use std::alloc::Global;

/// The instructions of recovery, its jump to where the run goes on included.
const RECOVERY: u32 = 33;

/// Each machine loses power after every third instruction. Where a torn flip commits, recovery goes
/// on behind the flip and the return that follows it, so that other machines lose power after those
/// two.
const STRIDE: u32 = 3;

/// When power fails, and how.
#[derive(Clone, Copy)]
struct Losses {
    /// The first loss is after so many instructions, below `STRIDE`.
    first: u32,
    /// Of each loss.
    mask: u32,
    /// Where power fails a second time: after so many instructions of the recovery that follows.
    again: Option<u32>,
}

// Tells how a machine has ended.
fn tell_end(machine: &Machine<PagedMem>, case: &mut Case) {
    case.debug(&machine.went());
    case.show(machine.status());
    case.show(machine.reason());
    case.bytes(machine.output());
    tell_variables(machine, case);
    case.say(", commits");
    case.show(machine.commits());
}

/// The number of instructions from power-up to the next commit, that one included.
fn next_commit(machine: &mut Machine<PagedMem>) -> Option<u32> {
    let commits = machine.commits();
    for n in 0..120 {
        machine.power(once(n, 0));
        if machine.commits() != commits {
            return Some(n);
        }
    }
    None
}

// Where the section behind the one that starts there starts: behind the return from the checkpoint
// that ends it.
fn next_start(machine: &mut Machine<PagedMem>, start: u32) -> Option<u32> {
    let length = next_commit(machine)?.checked_sub(RECOVERY)?;
    start.checked_add(length)?.checked_add(1)
}

/// How many instructions of a run that keeps its power stand before each of its sections: recovery,
/// and the sections before it, each up to the return from the checkpoint that ends it.
fn section_starts(
    alloc: Global,
    machine: &mut Machine<PagedMem>,
    commits: u64,
) -> Result<Vec<u32>, Stop> {
    let mut starts = Vec::new(alloc);
    let mut start = RECOVERY;
    for _ in 0..commits {
        starts.push(start)?;
        start = next_start(machine, start).ok_or(Stop::Row)?;
    }
    starts.push(start)?;
    Ok(starts)
}

/// The instructions from power-up to where a run that keeps its power has executed `n`. None where
/// what is committed is past that.
fn distance(machine: &Machine<PagedMem>, starts: &[u32], n: u32) -> Option<u32> {
    let section = usize::try_from(machine.commits()).ok()?;
    let start = *starts.get(section)?;
    if section > 0 && n < start {
        return None;
    }
    RECOVERY.checked_add(n)?.checked_sub(start)
}

// Power fails after so many instructions of the run, and where `losses` says so again.
fn lose_at(machine: &mut Machine<PagedMem>, starts: &[u32], n: u32, losses: Losses) -> Option<()> {
    let steps = distance(machine, starts, n)?;
    machine.power(once(steps, losses.mask));
    if let Some(again) = losses.again {
        machine.power(once(again, losses.mask));
    }
    Some(())
}

/// Power fails within a run. None where what is committed is past a place of it.
fn lose(machine: &mut Machine<PagedMem>, whole: &Whole, losses: Losses) -> Option<()> {
    for n in 0..whole.count {
        if n % STRIDE == losses.first {
            lose_at(machine, &whole.starts, n, losses)?;
        }
    }
    Some(())
}

/// A run of an image on an input that keeps its power: its sections' starts, its instructions, and
/// how it ends.
#[derive(Drop)]
struct Whole {
    starts: Vec<u32>,
    count: u32,
    end: Case,
}

/// Whether a run with these losses ends as one that keeps its power does, after as many commits.
fn survives(image: &Image, input: &[u8], whole: &Whole, losses: Losses, case: &mut Case) -> bool {
    let Some(mut machine) = loaded(image, input, case) else {
        return false;
    };
    if lose(&mut machine, whole, losses).is_none() {
        case.end(Stop::Row);
    }
    machine.power(once(10_000, 0));
    let mut end = Case::new(case.alloc);
    tell_end(&machine, &mut end);
    end.found() == whole.end.found()
}

/// How many of the machines do that among them lose power after each instruction.
fn count_surviving(
    image: &Image,
    input: &[u8],
    whole: &Whole,
    again: Option<u32>,
    case: &mut Case,
) -> u32 {
    let mut surviving: u32 = 0;
    for mask in 0..16 {
        for first in 0..STRIDE {
            let losses = Losses { first, mask, again };
            if survives(image, input, whole, losses, case) {
                surviving = surviving.saturating_add(1);
            }
        }
    }
    surviving
}

// Whether the run halts with the last one of its instructions, so many behind its last commit.
fn halts_at(machine: &mut Machine<PagedMem>, starts: &[u32], count: u32) -> bool {
    let Some(last) = distance(machine, starts, count) else {
        return false;
    };
    machine.power(once(last.saturating_sub(1), 0)) == Went::On
        && machine.power(once(last, 0)) == Went::Halted
}

// The starts of the sections of a run of so many commits and instructions.
fn starts_of(
    alloc: Global,
    machine: &mut Machine<PagedMem>,
    commits: u64,
    count: u32,
) -> Result<Vec<u32>, Stop> {
    let starts = section_starts(alloc, machine, commits)?;
    if halts_at(machine, &starts, count) {
        Ok(starts)
    } else {
        Err(Stop::Row)
    }
}

// Tells how a run that keeps its power ends, and gives its commits and its instructions.
fn whole_run(image: &Image, input: &[u8], case: &mut Case) -> Option<(u64, u32)> {
    let mut machine = loaded(image, input, case)?;
    machine.power(once(10_000, 0));
    tell_end(&machine, case);
    let count = u32::try_from(machine.instructions()).ok()?;
    Some((machine.commits(), count))
}

fn whole_of(image: &Image, input: &[u8], case: &mut Case) -> Option<Whole> {
    let alloc = case.alloc;
    let mut end = Case::new(alloc);
    let (commits, count) = whole_run(image, input, &mut end)?;
    let mut machine = loaded(image, input, case)?;
    let starts = case.take(starts_of(alloc, &mut machine, commits, count))?;
    Some(Whole { starts, count, end })
}

/// `survival`, a name, an image, an input, and after how many instructions of the recovery power
/// fails again, or `-`: how the run ends that keeps its power, and how many of the 48 with losses
/// end so, three for each mask.
pub(crate) fn survival(texts: &Texts, row: &Row<'_>, case: &mut Case) {
    let Some(image) = image_of(texts, row, case) else {
        return;
    };
    let input = case.bytes_of(texts, row, 3);
    let again = match row.field(4) {
        "-" => None,
        number => Some(case.small(number)),
    };
    let Some(whole) = whole_of(&image, &input, case) else {
        case.end(Stop::Row);
        return;
    };
    case.say(whole.end.found());
    case.say(", so end");
    let surviving = count_surviving(&image, &input, &whole, again, case);
    case.show(surviving);
}
