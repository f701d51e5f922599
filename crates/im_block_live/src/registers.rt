ghost use Rattle.std.specs.Prelude.{◌≡◌, ◌<◌, ◌+◌, ◌&&◌, ◌||◌, ◌==◌, ℕ, length, not, nat_le};
ghost use Rattle.std.specs.Prelude.{nat_lt};
ghost use Rattle.im_block.specs.Wellformed.{ExitThere};
ghost use Rattle.im_alloc_relation.specs.Live.{uses, sets, place_uses, exit_lives, result_uses};
ghost use Rattle.im_block_live.specs.Words.{has, starts_have};

use im_block::{Exit, Line, Place};

/// The set of one register, or none where it is not among the 32 from `base` on.
fn one(base: u64, number: u64) -> u32
    ensures { (j : ℕ) → j < 32 → has result j ≡ (base + j == number) }
{
    if number < base {
        return 0;
    }
    let bit = number - base;
    if bit < 32 { 1 << bit as u32 } else { 0 }
}

fn single(base: u64, register: u32) -> u32
    ensures { (j : ℕ) → j < 32 → has result j ≡ (base + j == register) }
{
    one(base, u64::from(register))
}

fn two(base: u64, left: u32, right: u32) -> u32
    ensures { (j : ℕ) → j < 32 → has result j ≡ (base + j == left || base + j == right) }
{
    let a = single(base, left);
    let b = single(base, right);
    a | b
}

/// Registers side by side.
fn run(base: u64, first: u32, count: u32) -> u32
    ensures { (j : ℕ) → j < 32
        → has result j ≡ (nat_le first (base + j) && nat_lt (base + j) (first + count)) }
{
    let mut word = 0;
    for i in 0..count {
        word |= one(base, u64::from(first) + u64::from(i));
    }
    word
}

/// The register behind which a place is.
fn uses_of_place(base: u64, place: Place) -> u32
    ensures { (j : ℕ) → j < 32 → has result j ≡ place_uses place (base + j) }
{
    match place {
        Place::Static { .. } | Place::Local { .. } => 0,
        Place::Through { pointer, .. } => single(base, pointer),
    }
}

/// A register, and that behind which a place is.
fn with_place(base: u64, place: Place, register: u32) -> u32
    ensures { (j : ℕ) → j < 32 → has result j ≡ (place_uses place (base + j) || base + j == register) }
{
    let a = uses_of_place(base, place);
    let b = single(base, register);
    a | b
}

/// The registers that a line uses.
fn uses_of(base: u64, line: Line) -> u32
    ensures { (j : ℕ) → j < 32 → has result j ≡ uses line (base + j) }
{
    match line {
        Line::Put { .. }
        | Line::PutNull { .. }
        | Line::Reload { .. }
        | Line::Cut(_)
        | Line::Serve { from: None, .. } => 0,
        Line::Copy { from, .. }
        | Line::Convert { from, .. }
        | Line::Unary { from, .. }
        | Line::Not { from, .. }
        | Line::Spill { from, .. }
        | Line::Serve {
            from: Some(from),
            ..
        } => single(base, from),
        Line::Compute { left, right, .. }
        | Line::Compare { left, right, .. }
        | Line::Distance { left, right, .. } => two(base, left, right),
        Line::Move { pointer, by, .. } => two(base, pointer, by),
        Line::Address { place, .. } | Line::Read { place, .. } => uses_of_place(base, place),
        Line::Write { place, from, .. } => with_place(base, place, from),
        Line::Call { first, count, .. } => run(base, first, count),
    }
}

/// The register that a line sets.
fn sets_of(base: u64, line: Line) -> u32
    ensures { (j : ℕ) → j < 32 → has result j ≡ sets line (base + j) }
{
    match line {
        Line::Put { to, .. }
        | Line::PutNull { to }
        | Line::Copy { to, .. }
        | Line::Convert { to, .. }
        | Line::Unary { to, .. }
        | Line::Not { to, .. }
        | Line::Compute { to, .. }
        | Line::Compare { to, .. }
        | Line::Move { to, .. }
        | Line::Distance { to, .. }
        | Line::Address { to, .. }
        | Line::Read { to, .. }
        | Line::Reload { to, .. }
        | Line::Call { to, .. }
        | Line::Serve { to, .. } => single(base, to),
        Line::Write { .. } | Line::Spill { .. } | Line::Cut(_) => 0,
    }
}

/// What a line leaves of the registers that live behind it, and what it uses.
fn through(behind: u32, set: u32, used: u32) -> u32
    ensures { (j : ℕ) → j < 32 → has result j ≡ (has used j || (not (has set j) && has behind j)) }
{
    used | behind & !set
}

/// The registers that live before a line, by those that live behind it.
pub(crate) fn before(base: u64, line: Line, behind: u32) -> u32
    ensures { (j : ℕ) → j < 32 → has result j
        ≡ (uses line (base + j) || (not (sets line (base + j)) && has behind j)) }
{
    let set = sets_of(base, line);
    let used = uses_of(base, line);
    through(behind, set, used)
}

fn before_branch(base: u64, on: u32, holds: u32, fails: u32) -> u32
    ensures { (j : ℕ) → j < 32 → has result j ≡ (base + j == on || has holds j || has fails j) }
{
    let a = single(base, on);
    a | holds | fails
}

fn before_return(base: u64, from: Option<u32>) -> u32
    ensures { (j : ℕ) → j < 32 → has result j ≡ result_uses from (base + j) }
{
    match from {
        None => 0,
        Some(register) => single(base, register),
    }
}

/// The registers that live before an exit, by those at the starts of blocks.
pub(crate) fn before_exit(base: u64, starts: &[u32], exit: Exit) -> u32
    requires { ExitThere (length starts.now) exit }
    ensures { (j : ℕ) → j < 32 → has result j ≡ exit_lives (starts_have starts.now j) exit (base + j) }
{
    match exit {
        Exit::Jump(to) | Exit::Turn(to) => starts[to as usize],
        Exit::Branch { on, holds, fails } => {
            before_branch(base, on, starts[holds as usize], starts[fails as usize])
        }
        Exit::Return(from) => before_return(base, from),
    }
}
