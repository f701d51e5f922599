ghost use Rattle.std.specs.Prelude.{◌≡◌, ◌≤◌, OnOk};
ghost use Rattle.im_alloc_placed.specs.Placeable.{first_free};
ghost use Rattle.im_forward.specs.Forward.{place_using, line_using, exit_using};
ghost use Rattle.im_forward.specs.Known.{instead_of, UsesSources, AllUseSources};

use crate::copies::{Known, instead, pass};
use im_block::{Block, Exit, Function, Line, Place};
use im_num::NoMemory;
use std::alloc::Global;

fn place_with(copies: &[Known], place: Place) -> Place
    ensures { result ≡ place_using (instead_of copies.now) place }
{
    match place {
        Place::Through { pointer, offset } => Place::Through {
            pointer: instead(copies, pointer),
            offset,
        },
        Place::Static { .. } | Place::Local { .. } => place,
    }
}

/// A line with what was copied in the place of copies. Arguments of calls stand side by side, so
/// they stay.
fn line_with(copies: &[Known], mut line: Line) -> Line
    ensures { result ≡ line_using (instead_of copies.now) line }
{
    match &mut line {
        Line::Copy { from, .. } => *from = instead(copies, *from),
        Line::Convert { from, .. } => *from = instead(copies, *from),
        Line::Unary { from, .. } => *from = instead(copies, *from),
        Line::Not { from, .. } => *from = instead(copies, *from),
        Line::Spill { from, .. } => *from = instead(copies, *from),
        Line::Serve {
            from: Some(from),
            ..
        } => *from = instead(copies, *from),
        Line::Compute { left, right, .. } => {
            *left = instead(copies, *left);
            *right = instead(copies, *right);
        }
        Line::Compare { left, right, .. } => {
            *left = instead(copies, *left);
            *right = instead(copies, *right);
        }
        Line::Distance { left, right, .. } => {
            *left = instead(copies, *left);
            *right = instead(copies, *right);
        }
        Line::Move { pointer, by, .. } => {
            *pointer = instead(copies, *pointer);
            *by = instead(copies, *by);
        }
        Line::Address { place, .. } => *place = place_with(copies, *place),
        Line::Read { place, .. } => *place = place_with(copies, *place),
        Line::Write { place, from, .. } => {
            *place = place_with(copies, *place);
            *from = instead(copies, *from);
        }
        Line::Put { .. }
        | Line::PutNull { .. }
        | Line::Reload { .. }
        | Line::Cut(_)
        | Line::Call { .. }
        | Line::Serve { from: None, .. } => {}
    }
    line
}

fn exit_with(copies: &[Known], exit: Exit) -> Exit
    ensures { result ≡ exit_using (instead_of copies.now) exit }
{
    match exit {
        Exit::Jump(_) | Exit::Turn(_) | Exit::Return(None) => exit,
        Exit::Branch { on, holds, fails } => Exit::Branch {
            on: instead(copies, on),
            holds,
            fails,
        },
        Exit::Return(Some(from)) => Exit::Return(Some(instead(copies, from))),
    }
}

/// What used a copy in a block uses what was copied. `copies` is room for those that are known.
fn use_sources(copies: &mut Vec<Known>, free: u32, block: &mut Block) -> Result<(), NoMemory>
    ensures { OnOk result (UsesSources free block.old block.new) }
{
    copies.clear();
    for line in block.lines.iter_mut() {
        let old = *line;
        *line = line_with(copies, old);
        pass(copies, free, old)?;
    }
    block.exit = exit_with(copies, block.exit);
    Ok(())
}

/// What used a copy uses what was copied, in each block.
pub(crate) fn all_use_sources(alloc: Global, function: &mut Function) -> Result<(), NoMemory>
    requires { first_free function.old ≤ function.old.register_count }
    ensures { OnOk result (AllUseSources function.old function.new) }
{
    let mut copies = Vec::new(alloc);
    let free = function.first_parameter + function.parameters;
    for block in function.blocks.iter_mut() {
        use_sources(&mut copies, free, block)?;
    }
    Ok(())
}
