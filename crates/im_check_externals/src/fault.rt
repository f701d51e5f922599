//! Why external declarations aren't typed.
ghost use Rattle.std.specs.Prelude.{◌≡◌, []};
ghost use Rattle.im_ctree.specs.Shape.{declarator_of};
ghost use Rattle.im_rules.specs.BodyBreaks.{declarator_token};
ghost use Rattle.im_rules.specs.Outline.{name_of as name_in};
ghost use Rattle.im_check_externals.specs.declared.fault.UnitFault.TheVariants.{Memory};
ghost use Rattle.im_check_externals.specs.Faults.{IsMetIn};

use im_check_outline::name_of;
use im_check_stop::Stop;
use im_ctree::{Declarator, Name};
use std::alloc::{AllocFailed, Global};

/// Why external declarations aren't typed.
#[derive(Debug, Drop)]
pub enum UnitFault {
    /// The rule of that number is broken by a node whose first token is that one.
    Rule { number: u32, token: u32 },
    /// A type has that many bytes, which is over the limit of one type. It was met in the
    /// declarator of this name, or in a function with it, or in specifiers, which have no name; the
    /// token is their first.
    Large { bytes: u64, token: u32, name: Name },
    /// Memory ran out.
    Memory,
}

impl<T: Drop> From<AllocFailed<T>> for UnitFault {
    ghost from_gives = { λ _ fault. fault ≡ Memory };

    fn from(_fault: AllocFailed<T>) -> UnitFault {
        UnitFault::Memory
    }
}

fn large(alloc: Global, bytes: u64, token: u32, met_in: &[u8]) -> UnitFault
    ensures { IsMetIn token met_in.now (Stop.Large bytes) result }
{
    match Vec::from_slice(alloc, met_in) {
        Ok(name) => UnitFault::Large { bytes, token, name },
        Err(_) => UnitFault::Memory,
    }
}

fn met_in(alloc: Global, stop: Stop, at: u32, name: &[u8]) -> UnitFault
    ensures { IsMetIn at name.now stop result }
{
    match stop {
        Stop::Rule { number, token } => UnitFault::Rule { number, token },
        Stop::Large { bytes } => large(alloc, bytes, at, name),
        Stop::Memory => UnitFault::Memory,
    }
}

/// A stop that was met in specifiers, whose first token is that one.
pub(crate) fn in_specifiers(alloc: Global, stop: Stop, token: u32) -> UnitFault
    ensures { IsMetIn token [] stop result }
{
    met_in(alloc, stop, token, b"")
}

/// A stop that was met in a declarator, or behind it.
pub(crate) fn in_declarator(alloc: Global, stop: Stop, d: &Declarator) -> UnitFault
    ensures { let e = declarator_of d.now in IsMetIn (declarator_token e) (name_in e) stop result }
{
    met_in(alloc, stop, d.at, name_of(d))
}
