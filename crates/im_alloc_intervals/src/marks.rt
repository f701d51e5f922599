ghost use Rattle.std.specs.Prelude.{◌≡◌, ◌<◌, ◌≤◌, ◌+◌, ◌^◌, ◌↔◌, IsTrue, length};
ghost use Rattle.im_block_live.specs.Words.{has};
ghost use Rattle.im_alloc_intervals.specs.Marks.{Adds, Flags, IsAt, IsBitAt, IsBitOf, IsOtherBit};
ghost use Rattle.im_alloc_intervals.specs.Marks.{IsBetween};
ghost use Rattle.im_alloc_intervals.specs.Marks.{touched as touched_at};

/// The stretch of positions from the first to the last at which a register lives, or was set by the
/// line right before.
#[derive(Clone, Copy, PartialEq, Eq, Debug)]
pub(crate) struct Interval {
    pub(crate) first: u64,
    pub(crate) last: u64,
}

fn touched(interval: Option<Interval>, position: u64) -> Interval
    ensures { result ≡ touched_at interval position }
{
    match interval {
        None => Interval {
            first: position,
            last: position,
        },
        Some(old) => Interval {
            first: old.first.min(position),
            last: old.last.max(position),
        },
    }
}

/// A register's interval comes to hold a position.
pub(crate) fn touch(table: &mut [Option<Interval>], register: usize, position: u64)
    requires { register < length table.old }
    ensures { Adds (IsAt register position) table.old table.new }
{
    table[register] = Some(touched(table[register], position));
}

fn has_bit(word: u32, bit: u32) -> bool
    requires { bit < 32 }
    ensures { result ≡ has word bit }
{
    word >> bit & 1 == 1
}

/// The registers of a word, 32 from `base` on, are marked at a position.
fn touch_word(table: &mut [Option<Interval>], base: u64, word: u32, position: u64)
    requires { base + 32 < 2 ^ 64 }
    ensures { Adds (IsBitAt base word position) table.old table.new }
{
    for bit in 0..32 {
        let register = base + u64::from(bit);
        if has_bit(word, bit) && register < table.len() as u64 {
            touch(table, register as usize, position);
        }
    }
}

/// The registers of words are marked at positions side by side.
pub(crate) fn touch_words(table: &mut [Option<Interval>], base: u64, words: &[u32], start: u64)
    requires small { base + 32 < 2 ^ 64 }
    requires room { start + length words.now < 2 ^ 64 }
    ensures { Adds (IsBitOf base words.now start) table.old table.new }
{
    for (i, word) in words.iter().enumerate() {
        if *word != 0 {
            touch_word(table, base, *word, start + i as u64);
        }
    }
}

fn is_register(some: Option<u32>, register: u64) -> bool
    ensures { IsTrue result ↔ some ≡ Some register }
{
    match some {
        None => false,
        Some(other) => u64::from(other) == register,
    }
}

/// Sets the flags of the registers of a word, 32 from `base` on, but for one.
pub(crate) fn flag_word(flags: &mut [bool], base: u64, word: u32, but: Option<u32>)
    requires { base + 32 < 2 ^ 64 }
    ensures { Flags (IsOtherBit base word but) flags.old flags.new }
{
    for bit in 0..32 {
        let register = base + u64::from(bit);
        if has_bit(word, bit) && register < flags.len() as u64 && !is_register(but, register) {
            flags[register as usize] = true;
        }
    }
}

/// Sets the flags of registers side by side.
pub(crate) fn flag_run(flags: &mut [bool], first: u32, count: u32)
    requires within { first + count ≤ length flags.old }
    requires small { first + count < 2 ^ 32 }
    ensures { Flags (IsBetween first count) flags.old flags.new }
{
    for register in first..first + count {
        flags[register as usize] = true;
    }
}
