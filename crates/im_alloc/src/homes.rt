ghost use Rattle.std.specs.Prelude.{◌≡◌};
ghost use Rattle.im_alloc_relation.specs.Homes.{reg};
ghost use Rattle.im_alloc_intervals.specs.Homes.{home_of, home_at};

use im_alloc_intervals::Home;

/// Where a register's value is kept. A number beyond the table is in x31.
pub(crate) fn home_at(homes: &[Home], register: usize) -> Home
    ensures { home_of result ≡ home_at homes.now register }
{
    match homes.get(register) {
        Some(home) => *home,
        None => Home::Register(31),
    }
}

/// The register that a value is in once it was brought from its home.
pub(crate) fn register_at(homes: &[Home], register: u32, scratch: u32) -> u32
    ensures { result ≡ reg (home_at homes.now register) scratch }
{
    match home_at(homes, register as usize) {
        Home::Register(own) => own,
        Home::Slot(_) => scratch,
    }
}
