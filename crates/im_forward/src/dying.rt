ghost use Rattle.std.specs.Prelude.{◌≡◌, ◌<◌, Vec, ℕ, All, length, drop, false};
ghost use Rattle.std.specs.Bool.{OnTrue};
ghost use Rattle.im_block.specs.Wellformed.{ExitThere};
ghost use Rattle.im_alloc_relation.specs.Live.{place_uses, uses, sets, exit_lives, lives};
ghost use Rattle.im_block_live.specs.Words.{has, groups_have};

use crate::copies::set_by;
use im_block::{Block, Exit, Line, Place};
use std::alloc::Global;

/// What becomes of a register is looked for so many lines farther, so that a line takes no longer
/// than that.
const MOST: usize = 256;

fn place_reads(place: Place, register: u32) -> bool
    ensures { result ≡ place_uses place register }
{
    match place {
        Place::Through { pointer, .. } => register == pointer,
        Place::Static { .. } | Place::Local { .. } => false,
    }
}

/// Whether a line uses a register.
fn reads(line: Line, register: u32) -> bool
    ensures { result ≡ uses line register }
{
    match line {
        Line::Put { .. }
        | Line::PutNull { .. }
        | Line::Reload { .. }
        | Line::Cut(_)
        | Line::Serve { from: None, .. } => false,
        Line::Copy { from, .. }
        | Line::Convert { from, .. }
        | Line::Unary { from, .. }
        | Line::Not { from, .. }
        | Line::Spill { from, .. }
        | Line::Serve {
            from: Some(from),
            ..
        } => register == from,
        Line::Compute { left, right, .. }
        | Line::Compare { left, right, .. }
        | Line::Distance { left, right, .. } => register == left || register == right,
        Line::Move { pointer, by, .. } => register == pointer || register == by,
        Line::Address { place, .. } | Line::Read { place, .. } => place_reads(place, register),
        Line::Write { place, from, .. } => place_reads(place, register) || register == from,
        Line::Call { first, count, .. } => {
            first <= register && u64::from(register) < u64::from(first) + u64::from(count)
        }
    }
}

/// Whether a line sets a register.
fn writes(line: Line, register: u32) -> bool
    ensures { result ≡ sets line register }
{
    match set_by(line) {
        Some(to) => register == to,
        None => false,
    }
}

fn has_bit(word: u32, bit: u32) -> bool
    requires { bit < 32 }
    ensures { result ≡ has word bit }
{
    word >> bit & 1 == 1
}

/// Whether a register lives at the start of a block. `groups` has those that do, 32 a group.
fn lives_at(groups: &[Vec<u32>], number: u32, register: u32) -> bool
    requires { All (λ (words : Vec ℕ Global). number < length words.items) groups.now }
    ensures { result ≡ groups_have groups.now number register }
{
    let i = register as usize / 32;
    if i >= groups.len() {
        return false;
    }
    let words = &groups[i];
    has_bit(words[number as usize], register % 32)
}

/// Whether a register lives before an exit.
fn lives_before(groups: &[Vec<u32>], exit: Exit, register: u32) -> bool
    requires { All (λ (words : Vec ℕ Global). ExitThere (length words.items) exit) groups.now }
    ensures { result ≡ exit_lives (groups_have groups.now) exit register }
{
    match exit {
        Exit::Jump(to) => lives_at(groups, to, register),
        Exit::Turn(to) => lives_at(groups, to, register),
        Exit::Branch { on, holds, fails } => {
            register == on || lives_at(groups, holds, register) || lives_at(groups, fails, register)
        }
        Exit::Return(None) => false,
        Exit::Return(Some(from)) => register == from,
    }
}

/// Whether a register doesn't live before a line of a block, as far as a few lines show.
pub(crate) fn dies(groups: &[Vec<u32>], block: &Block, first: usize, register: u32) -> bool
    requires { All (λ (words : Vec ℕ Global). ExitThere (length words.items) block.now.exit) groups.now }
    ensures { OnTrue result
        (lives (groups_have groups.now) (drop first block.now.lines.items) block.now.exit register
        ≡ false) }
{
    for i in first..block.lines.len() {
        let line = block.lines[i];
        if reads(line, register) {
            return false;
        }
        if writes(line, register) {
            return true;
        }
        if i - first == MOST {
            return false;
        }
    }
    !lives_before(groups, block.exit, register)
}
