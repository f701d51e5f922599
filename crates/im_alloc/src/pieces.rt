ghost use Rattle.std.specs.Prelude.{◌≡◌, ◌<◌, ◌≤◌, ◌+◌, ◌^◌, ◌∷◌, OnOk};
ghost use Rattle.im_num.specs.declared.values.Cause.TheVariants.{Return as ReturnCut};
ghost use Rattle.im_block.specs.declared.code.Line.TheVariants.{Cut};
ghost use Rattle.im_alloc_relation.specs.Homes.{bring, give, into, load, save};
ghost use Rattle.im_alloc_intervals.specs.Homes.{home_of, home_at};
ghost use Rattle.im_alloc.specs.Parts.{Adds};

use crate::homes::home_at;
use im_alloc_intervals::Home;
use im_block::Line;
use im_num::{Cause, NoMemory};

/// Adds a line.
pub(crate) fn push(lines: &mut Vec<Line>, line: Line) -> Result<(), NoMemory>
    ensures { OnOk result (Adds (λ rest. line ∷ rest) lines.old.items lines.new.items) }
{
    lines.push(line)?;
    Ok(())
}

/// What is in a slot comes into a scratch register.
pub(crate) fn push_load(
    lines: &mut Vec<Line>,
    home: Home,
    scratch: u32,
    access: u64,
) -> Result<(), NoMemory>
    ensures { OnOk result
        (Adds (load (home_of home) scratch access) lines.old.items lines.new.items) }
{
    match home {
        Home::Register(_) => Ok(()),
        Home::Slot(slot) => push(
            lines,
            Line::Reload {
                to: scratch,
                slot,
                access,
            },
        ),
    }
}

/// What is in x7 goes home.
pub(crate) fn push_save(lines: &mut Vec<Line>, home: Home, access: u64) -> Result<(), NoMemory>
    ensures { OnOk result (Adds (save (home_of home) access) lines.old.items lines.new.items) }
{
    match home {
        Home::Register(_) => Ok(()),
        Home::Slot(slot) => push(
            lines,
            Line::Spill {
                slot,
                from: 7,
                access,
            },
        ),
    }
}

/// A value comes into a register of its own, for an argument or a result.
pub(crate) fn push_into(
    lines: &mut Vec<Line>,
    home: Home,
    to: u32,
    access: u64,
) -> Result<(), NoMemory>
    ensures { OnOk result (Adds (into (home_of home) to access) lines.old.items lines.new.items) }
{
    match home {
        Home::Register(from) => push(lines, Line::Copy { to, from }),
        Home::Slot(slot) => push(lines, Line::Reload { to, slot, access }),
    }
}

/// A call, the cut behind it, and its result, which goes home from x10.
pub(crate) fn push_call(
    lines: &mut Vec<Line>,
    call: Line,
    home: Home,
    access: u64,
) -> Result<(), NoMemory>
    ensures { OnOk result
        (Adds
        (λ rest. call ∷ Cut ReturnCut ∷ give (home_of home) access rest)
        lines.old.items
        lines.new.items) }
{
    push(lines, call)?;
    push(lines, Line::Cut(Cause::Return))?;
    let back = match home {
        Home::Register(to) => Line::Copy { to, from: 10 },
        Home::Slot(slot) => Line::Spill {
            slot,
            from: 10,
            access,
        },
    };
    push(lines, back)
}

/// So many arguments come into x10 and on.
pub(crate) fn push_arguments(
    lines: &mut Vec<Line>,
    homes: &[Home],
    first: u32,
    count: u32,
    access: u64,
) -> Result<(), NoMemory>
    requires few { count ≤ 8 }
    requires room { access + count < 2 ^ 64 }
    ensures { OnOk result
        (Adds (bring (home_at homes.now) 10 first count access) lines.old.items lines.new.items) }
{
    for i in 0..count {
        let home = home_at(homes, first as usize + i as usize);
        push_into(lines, home, 10 + i, access + u64::from(i))?;
    }
    Ok(())
}
