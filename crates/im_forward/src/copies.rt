ghost use Rattle.std.specs.Prelude.{◌≡◌, ℕ, OnOk};
ghost use Rattle.std.specs.List.{filter};
ghost use Rattle.im_alloc_relation.specs.Live.{sets};
ghost use Rattle.im_forward.specs.Known.{instead_of, is_one, is_without, Passes, PassesCopy};

use im_block::Line;
use im_num::NoMemory;
use std::alloc::Global;

/// A register, and that whose value it has.
#[derive(Clone, Copy)]
pub(crate) struct Known {
    pub(crate) register: u32,
    pub(crate) source: u32,
}

/// So many copies are known at a time at most, so that a line takes no longer than that.
const MOST: usize = 64;

/// The register to use in the place of one.
pub(crate) fn instead(copies: &[Known], register: u32) -> u32
    ensures { result ≡ instead_of copies.now register }
{
    for copy in copies {
        if register == copy.register {
            return copy.source;
        }
    }
    register
}

/// The register that a line sets.
pub(crate) fn set_by(line: Line) -> Option<u32>
    ensures { (v : ℕ) → sets line v ≡ is_one result v }
{
    match line {
        Line::Put { to, .. }
        | Line::PutNull { to }
        | Line::Copy { to, .. }
        | Line::Convert { to, .. }
        | Line::Unary { to, .. }
        | Line::Not { to, .. }
        | Line::Compute { to, .. }
        | Line::Compare { to, .. }
        | Line::Move { to, .. }
        | Line::Distance { to, .. }
        | Line::Address { to, .. }
        | Line::Read { to, .. }
        | Line::Reload { to, .. }
        | Line::Call { to, .. }
        | Line::Serve { to, .. } => Some(to),
        Line::Write { .. } | Line::Spill { .. } | Line::Cut(_) => None,
    }
}

/// What is known once a register has been set.
fn forget(copies: &mut Vec<Known>, register: u32)
    ensures { copies.new.items ≡ filter (is_without register) copies.old.items }
{
    copies.retain(|copy| copy.register != register && copy.source != register);
}

/// What is known behind a copy. No parameter, of which none is from `free` on, is to be used.
fn pass_copy(copies: &mut Vec<Known>, free: u32, to: u32, from: u32) -> Result<(), NoMemory>
    ensures { OnOk result (PassesCopy free to from copies.old.items copies.new.items) }
{
    let source = instead(copies, from);
    forget(copies, to);
    if to != from && to != source && free <= source && copies.len() < MOST {
        copies.push(Known {
            register: to,
            source,
        })?;
    }
    Ok(())
}

/// What is still known behind a line, whatever it copies.
fn pass_other(copies: &mut Vec<Known>, line: Line)
    ensures { (free : ℕ) → Passes free line copies.old.items copies.new.items }
{
    if let Some(register) = set_by(line) {
        forget(copies, register);
    }
}

/// What is known behind a line.
pub(crate) fn pass(copies: &mut Vec<Known>, free: u32, line: Line) -> Result<(), NoMemory>
    ensures { OnOk result (Passes free line copies.old.items copies.new.items) }
{
    match line {
        Line::Copy { to, from } => pass_copy(copies, free, to, from),
        _ => {
            pass_other(copies, line);
            Ok(())
        }
    }
}
