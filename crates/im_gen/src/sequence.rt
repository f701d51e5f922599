ghost use Rattle.std.specs.Prelude.{◌≡◌};
ghost use Rattle.im_gen.specs.Gen.{next_word};

/// The word of the sequence after this one.
pub(crate) fn next_word(word: u32) -> u32
    ensures { result ≡ next_word word }
{
    word.wrapping_mul(1_664_525).wrapping_add(1_013_904_223)
}
