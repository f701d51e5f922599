ghost use Rattle.std.specs.Prelude.{◌≡◌, length};
ghost use Rattle.im_promote.specs.Promote.{taken_into, home_of, promoted};
ghost use Rattle.im_promote.specs.Homes.{homes_from, EmptiesObject, EmptiesObjects, RewritesBlock};
ghost use Rattle.im_promote.specs.Homes.{RewritesFunction};

use crate::homes::Homes;
use im_block::{Block, Function, Line, Object, Place};
use im_num::Kind;

/// The register of an object, by its number in the unit, where it has one.
fn register_of(first: u32, homes: &[Option<u32>], object: u32) -> Option<u32>
    ensures { result ≡ homes_from first homes.now object }
{
    if object < first {
        return None;
    }
    let index = (object - first) as usize;
    if index < homes.len() {
        homes[index]
    } else {
        None
    }
}

fn home(first: u32, homes: &[Option<u32>], place: Place) -> Option<u32>
    ensures { result ≡ home_of (homes_from first homes.now) place }
{
    match place {
        Place::Local { object, .. } => register_of(first, homes, object),
        Place::Static { .. } | Place::Through { .. } => None,
    }
}

/// A value goes into a register as it goes into a cell of the kind.
fn taking(kind: Kind, to: u32, from: u32) -> Line
    ensures { result ≡ taken_into kind to from }
{
    match kind {
        Kind::Ptr => Line::Copy { to, from },
        _ => Line::Convert { to, kind, from },
    }
}

fn promoted_line(first: u32, homes: &[Option<u32>], line: Line) -> Line
    ensures { result ≡ promoted (homes_from first homes.now) line }
{
    match line {
        Line::Read { to, place, .. } => match home(first, homes, place) {
            Some(from) => Line::Copy { to, from },
            None => line,
        },
        Line::Write {
            place,
            kind,
            from,
            ..
        } => match home(first, homes, place) {
            Some(to) => taking(kind, to, from),
            None => line,
        },
        _ => line,
    }
}

fn rewrite_block(first: u32, homes: &[Option<u32>], block: &mut Block)
    ensures { RewritesBlock (homes_from first homes.now) block.old block.new }
{
    for line in block.lines.iter_mut() {
        *line = promoted_line(first, homes, *line);
    }
}

/// An object that is a register has no bytes.
fn empty_object(home: Option<u32>, object: &mut Object)
    ensures { EmptiesObject home object.old object.new }
{
    if home.is_some() {
        object.size = 0;
        object.cells.clear();
    }
}

/// Objects that are registers lose their bytes. They keep their numbers, by which the others go.
fn empty_objects(homes: &[Option<u32>], objects: &mut [Object])
    requires { length homes.now ≡ length objects.old }
    ensures { EmptiesObjects homes.now objects.old objects.new }
{
    for (k, object) in objects.iter_mut().enumerate() {
        empty_object(homes[k], object);
    }
}

pub(crate) fn rewrite(function: &mut Function, homes: &Homes)
    requires { length homes.now.of.items ≡ length function.old.objects.items }
    ensures { RewritesFunction homes.now.of.items homes.now.register_count function.old function.new }
{
    let first = function.first_object;
    for block in function.blocks.iter_mut() {
        rewrite_block(first, &homes.of, block);
    }
    empty_objects(&homes.of, &mut function.objects);
    function.register_count = homes.register_count;
}
