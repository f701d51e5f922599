ghost use Rattle.std.specs.Prelude.{◌≡◌, ◌≤◌, ◌<◌, ◌+◌, ◌&&◌, ◌||◌, ◌==◌, ℕ, length, not, nat_le};
ghost use Rattle.std.specs.Prelude.{nat_lt};
ghost use Rattle.im_alloc_relation.specs.Live.{uses, place_uses, result_uses};
ghost use Rattle.im_live.specs.Reads.{in_frame, reads, reads_stack, writes, exit_live};
ghost use Rattle.im_live.specs.Words.{has, starts_have, PlaceBelow, IsMachineLine, IsMachineResult};
ghost use Rattle.im_live.specs.Words.{IsMachineExit};

use im_block::{Exit, Line, Place};

/// x1 and x2.
const RETURNED: u32 = 6;

/// x1, and x5 to x31.
const CALLED: u32 = 0xFFFF_FFE2;

pub(crate) fn contains(word: u32, register: u32) -> bool
    requires { register < 32 }
    ensures { result ≡ has word register }
{
    word >> register & 1 == 1
}

/// The set of one register.
pub(crate) fn one(register: u32) -> u32
    requires { register < 32 }
    ensures { (r : ℕ) → r < 32 → has result r ≡ (r == register) }
{
    1 << register
}

/// The set of two.
fn two(left: u32, right: u32) -> u32
    requires left { left < 32 }
    requires right { right < 32 }
    ensures { (r : ℕ) → r < 32 → has result r ≡ (r == left || r == right) }
{
    let a = one(left);
    let b = one(right);
    a | b
}

/// The set of registers side by side.
fn run(first: u32, count: u32) -> u32
    requires { first + count < 32 }
    ensures { (r : ℕ) → r < 32 → has result r ≡ (nat_le first r && nat_lt r (first + count)) }
{
    (1 << (first + count)) - (1 << first)
}

/// The register behind which a place is.
fn uses_of_place(place: Place) -> u32
    requires { PlaceBelow place }
    ensures { (r : ℕ) → r < 32 → has result r ≡ place_uses place r }
{
    match place {
        Place::Static { .. } | Place::Local { .. } => 0,
        Place::Through { pointer, .. } => one(pointer),
    }
}

/// A register, and that behind which a place is.
fn with_place(place: Place, register: u32) -> u32
    requires place { PlaceBelow place }
    requires register { register < 32 }
    ensures { (r : ℕ) → r < 32 → has result r ≡ (place_uses place r || r == register) }
{
    let a = uses_of_place(place);
    let b = one(register);
    a | b
}

/// The registers that a line has as operands.
fn uses_of(line: Line) -> u32
    requires { IsMachineLine line }
    ensures { (r : ℕ) → r < 32 → has result r ≡ uses line r }
{
    match line {
        Line::Put { .. }
        | Line::PutNull { .. }
        | Line::Reload { .. }
        | Line::Cut(_)
        | Line::Serve { from: None, .. } => 0,
        Line::Copy { from, .. }
        | Line::Convert { from, .. }
        | Line::Unary { from, .. }
        | Line::Not { from, .. }
        | Line::Spill { from, .. }
        | Line::Serve {
            from: Some(from),
            ..
        } => one(from),
        Line::Compute { left, right, .. }
        | Line::Compare { left, right, .. }
        | Line::Distance { left, right, .. } => two(left, right),
        Line::Move { pointer, by, .. } => two(pointer, by),
        Line::Address { place, .. } | Line::Read { place, .. } => uses_of_place(place),
        Line::Write { place, from, .. } => with_place(place, from),
        Line::Call { first, count, .. } => run(first, count),
    }
}

/// Whether an object is found by the stack pointer.
fn is_in_frame(place: Place) -> bool
    ensures { result ≡ in_frame place }
{
    matches!(place, Place::Local { .. })
}

/// Whether a line calls, or accesses the frame.
fn needs_stack(line: Line) -> bool
    ensures { result ≡ reads_stack line }
{
    match line {
        Line::Address { place, .. } | Line::Read { place, .. } | Line::Write { place, .. } => {
            is_in_frame(place)
        }
        Line::Reload { .. } | Line::Spill { .. } | Line::Call { .. } | Line::Serve { .. } => true,
        _ => false,
    }
}

/// The registers that a line writes.
fn writes_of(line: Line) -> u32
    requires { IsMachineLine line }
    ensures { (r : ℕ) → r < 32 → has result r ≡ writes line r }
{
    match line {
        Line::Put { to, .. }
        | Line::PutNull { to }
        | Line::Copy { to, .. }
        | Line::Convert { to, .. }
        | Line::Unary { to, .. }
        | Line::Not { to, .. }
        | Line::Compute { to, .. }
        | Line::Compare { to, .. }
        | Line::Move { to, .. }
        | Line::Distance { to, .. }
        | Line::Address { to, .. }
        | Line::Read { to, .. }
        | Line::Reload { to, .. } => one(to),
        Line::Write { .. } | Line::Spill { .. } | Line::Cut(_) => 0,
        Line::Call { .. } => CALLED,
        Line::Serve { .. } => CALLED,
    }
}

/// x2, if it is needed.
fn stack_if(is_needed: bool) -> u32
    ensures { (r : ℕ) → r < 32 → has result r ≡ (is_needed && r == 2) }
{
    if is_needed { 4 } else { 0 }
}

/// What a line leaves of the registers that live behind it, and what it reads.
fn through(word: u32, written: u32, used: u32, by_stack: bool) -> u32
    ensures { (r : ℕ) → r < 32 → has result r
        ≡ ((has used r || (by_stack && r == 2)) || (not (has written r) && has word r)) }
{
    let stack = stack_if(by_stack);
    word & !written | used | stack
}

/// The registers that live before a line, by those that live behind it.
pub(crate) fn before(line: Line, word: u32) -> u32
    requires { IsMachineLine line }
    ensures { (r : ℕ) → r < 32 → has result r ≡ (reads line r || (not (writes line r) && has word r)) }
{
    let written = writes_of(line);
    let used = uses_of(line);
    let by_stack = needs_stack(line);
    through(word, written, used, by_stack)
}

/// A register, and those that live at the start of one of two blocks.
fn before_branch(on: u32, holds: u32, fails: u32) -> u32
    requires { on < 32 }
    ensures { (r : ℕ) → r < 32 → has result r ≡ (r == on || (has holds r || has fails r)) }
{
    let a = one(on);
    a | (holds | fails)
}

/// What a return reads: the return address, the stack pointer, and a result.
fn before_return(from: Option<u32>) -> u32
    requires { IsMachineResult from }
    ensures { (r : ℕ) → r < 32 → has result r ≡ (result_uses from r || (r == 1 || r == 2)) }
{
    match from {
        None => RETURNED,
        Some(register) => one(register) | RETURNED,
    }
}

/// The registers that live before an exit, by those at the starts of blocks.
pub(crate) fn before_exit(starts: &[u32], exit: Exit) -> u32
    requires { IsMachineExit (length starts.now) exit }
    ensures { (r : ℕ) → r < 32 → has result r ≡ exit_live (starts_have starts.now) exit r }
{
    match exit {
        Exit::Jump(to) | Exit::Turn(to) => starts[to as usize],
        Exit::Branch { on, holds, fails } => {
            before_branch(on, starts[holds as usize], starts[fails as usize])
        }
        Exit::Return(from) => before_return(from),
    }
}
