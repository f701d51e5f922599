ghost use Rattle.std.specs.Prelude.{◌≡◌, ◌≤◌, ◌<◌, ◌+◌, Bool};
ghost use Rattle.im_live.specs.Words.{has};
ghost use Rattle.im_live.specs.Entries.{greatest, entry_of};

use crate::registers::contains;

/// The greatest register below x(n+5) that a word has, or 4.
fn greatest_in(word: u32, n: u32) -> u32
    requires { n ≤ 27 }
    ensures { result ≡ greatest (has word) n }
{
    if n == 0 {
        4
    } else if contains(word, n + 4) {
        n + 4
    } else {
        greatest_in(word, n - 1)
    }
}

/// The least entry of the checkpoint routine that saves the registers of a word: its number is that
/// of the last register that it saves.
pub fn entry_for(word: u32) -> u32
    ensures { result ≡ entry_of (has word) }
{
    greatest_in(word, 27)
}
