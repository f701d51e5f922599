ghost use Rattle.std.specs.Prelude.{◌≡◌, ℕ, IfOk};

use im_num::NoMemory;

/// The bytes of each static of a unit, as far as it is declared.
pub trait Sizes {
    /// The bytes of the static of each number.
    ghost size: { Self → ℕ → ℕ };

    /// The bytes of the static of that number.
    fn bytes(&self, number: u32) -> Result<u64, NoMemory>
        ensures { IfOk result (λ n. n ≡ size self.now number) };
}
