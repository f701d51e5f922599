ghost use Rattle.std.specs.Prelude.{◌≡◌, ◌<◌, ◌≤◌, ◌^◌, ◌++◌, IfOk, OnOk, length};
ghost use Rattle.im_alloc_intervals.specs.Scans.{AreBegun, AreStarts, starts_of_one};

use crate::marks::Interval;
use im_num::NoMemory;
use std::alloc::Global;

/// Where the interval of a register begins.
#[derive(Clone, Copy, PartialEq, Eq, Debug)]
pub(crate) struct Start {
    pub(crate) first: u64,
    pub(crate) register: u32,
}

fn push_start(
    starts: &mut Vec<Start>,
    register: u32,
    interval: Option<Interval>,
) -> Result<(), NoMemory>
    ensures { OnOk result
        (starts.new.items ≡ starts.old.items ++ starts_of_one register interval) }
{
    if let Some(own) = interval {
        starts.push(Start {
            first: own.first,
            register,
        })?;
    }
    Ok(())
}

/// The registers from a number on that have intervals.
fn begun(alloc: Global, from: u32, intervals: &[Option<Interval>]) -> Result<Vec<Start>, NoMemory>
    requires small { length intervals.now < 2 ^ 32 }
    requires within { from ≤ length intervals.now }
    ensures { IfOk result (λ starts. AreBegun from (length intervals.now) intervals.now starts.items) }
{
    let mut starts = Vec::new(alloc);
    for register in from..intervals.len() as u32 {
        push_start(&mut starts, register, intervals[register as usize])?;
    }
    Ok(starts)
}

/// The same, by where their intervals begin.
pub(crate) fn starts(
    alloc: Global,
    from: u32,
    intervals: &[Option<Interval>],
) -> Result<Vec<Start>, NoMemory>
    requires small { length intervals.now < 2 ^ 32 }
    requires within { from ≤ length intervals.now }
    ensures { IfOk result (λ starts. AreStarts from intervals.now starts.items) }
{
    let mut starts = begun(alloc, from, intervals)?;
    starts.sort_by_key(|start| start.first)?;
    Ok(starts)
}
