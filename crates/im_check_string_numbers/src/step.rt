ghost use Rattle.std.specs.Prelude.{◌≡◌, ◌+◌, IfOk};

use im_num::{NoMemory, beyond_memory};

/// The number behind one string literal. Want of memory where it is 2^32.
pub(crate) fn behind_one(next: u32) -> Result<u32, NoMemory>
    ensures { IfOk result (λ n. n ≡ next + 1) }
{
    match next.checked_add(1) {
        Some(n) => Ok(n),
        None => Err(beyond_memory()),
    }
}
