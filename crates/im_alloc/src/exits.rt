ghost use Rattle.std.specs.Prelude.{◌≡◌, ◌++◌, OnOk};
ghost use Rattle.im_alloc_relation.specs.Homes.{exit_lines, put_exit};
ghost use Rattle.im_alloc_intervals.specs.Homes.{home_at};

use crate::homes::{home_at, register_at};
use crate::pieces::{push_into, push_load};
use im_alloc_intervals::Home;
use im_block::{Exit, Line};
use im_num::NoMemory;

/// What an exit needs, before it.
pub(crate) fn push_exit(
    lines: &mut Vec<Line>,
    homes: &[Home],
    number: u64,
    exit: Exit,
) -> Result<(), NoMemory>
    ensures { OnOk result
        (lines.new.items ≡ lines.old.items ++ exit_lines (home_at homes.now) number exit) }
{
    match exit {
        Exit::Jump(_) | Exit::Turn(_) | Exit::Return(None) => Ok(()),
        Exit::Branch { on, .. } => push_load(lines, home_at(homes, on as usize), 7, number),
        Exit::Return(Some(from)) => push_into(lines, home_at(homes, from as usize), 10, number),
    }
}

/// An exit over the registers in which its values are.
pub(crate) fn exit_on(homes: &[Home], exit: Exit) -> Exit
    ensures { result ≡ put_exit (home_at homes.now) exit }
{
    match exit {
        Exit::Branch { on, holds, fails } => Exit::Branch {
            on: register_at(homes, on, 7),
            holds,
            fails,
        },
        Exit::Return(Some(_)) => Exit::Return(Some(10)),
        Exit::Jump(_) | Exit::Turn(_) | Exit::Return(None) => exit,
    }
}
