ghost use Rattle.std.specs.Prelude.{◌≡◌, ◌<◌, ◌+◌, ◌&&◌, ◌||◌, ◌==◌, ℕ, length, not, true};
ghost use Rattle.im_block.specs.Wellformed.{ExitThere};
ghost use Rattle.im_promote.specs.Written.{names, reads_object, writes_object, exit_objects};
ghost use Rattle.im_promote.specs.Words.{has, starts_have, inside, breaks};

use im_block::{Exit, Line, Place};

pub(crate) fn contains(word: u32, bit: u32) -> bool
    requires { bit < 32 }
    ensures { result ≡ has word bit }
{
    word >> bit & 1 == 1
}

/// The objects that are in neither set.
pub(crate) fn neither(first: u32, second: u32) -> u32
    ensures { (j : ℕ) → j < 32 → has result j ≡ not (has first j || has second j) }
{
    !(first | second)
}

/// The set of one object, or none where it is not among the 32 from `base` on.
fn one(base: u64, object: u32) -> u32
    ensures { (j : ℕ) → j < 32 → has result j ≡ (base + j == object) }
{
    let number = u64::from(object);
    if number < base {
        return 0;
    }
    let bit = number - base;
    if bit < 32 { 1 << bit as u32 } else { 0 }
}

/// The object of the activation that a place names.
fn named(base: u64, place: Place) -> u32
    ensures { (j : ℕ) → j < 32 → has result j ≡ names place (base + j) }
{
    match place {
        Place::Local { object, .. } => one(base, object),
        Place::Static { .. } | Place::Through { .. } => 0,
    }
}

/// The same, where the place is not the object's first byte.
fn named_inside(base: u64, place: Place) -> u32
    ensures { (j : ℕ) → j < 32 → has result j ≡ inside place (base + j) }
{
    match place {
        Place::Local { object, offset } => { if offset == 0 { 0 } else { one(base, object) } }
        Place::Static { .. } | Place::Through { .. } => 0,
    }
}

/// The objects that live before a line, by those that live behind it.
pub(crate) fn before(base: u64, line: Line, behind: u32) -> u32
    ensures { (j : ℕ) → j < 32 → has result j
        ≡ (reads_object line (base + j) || (not (writes_object line (base + j)) && has behind j)) }
{
    match line {
        Line::Read { place, .. } => named(base, place) | behind,
        Line::Write { place, .. } => behind & !named(base, place),
        _ => behind,
    }
}

/// The objects that live before an exit, by those that live at the starts of blocks.
pub(crate) fn before_exit(starts: &[u32], exit: Exit) -> u32
    requires { ExitThere (length starts.now) exit }
    ensures { (j : ℕ) → j < 32 → has result j ≡ exit_objects (starts_have starts.now j) exit }
{
    match exit {
        Exit::Jump(to) | Exit::Turn(to) => starts[to as usize],
        Exit::Branch { holds, fails, .. } => starts[holds as usize] | starts[fails as usize],
        Exit::Return(_) => 0,
    }
}

/// The objects that a line keeps from being registers: by their address, by an access inside of
/// them, and those that live across a call, which would need a slot of the frame instead.
pub(crate) fn spoiled(base: u64, line: Line, behind: u32) -> u32
    ensures { (j : ℕ) → j < 32 → breaks line (base + j) ≡ true → has result j ≡ true }
{
    match line {
        Line::Address { place, .. } => named(base, place),
        Line::Read { place, .. } | Line::Write { place, .. } => named_inside(base, place),
        Line::Call { .. } | Line::Serve { .. } => behind,
        _ => 0,
    }
}
