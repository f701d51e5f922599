ghost use Rattle.std.specs.Prelude.{◌≡◌, true, false, MatchOption};
ghost use Rattle.im_store.specs.Numbers.{is_small};

use crate::number::Number;

impl Number {
    /// The number of that value; none where it has more bits.
    pub fn of(value: i128) -> Option<Number>
        ensures { MatchOption result (is_small value ≡ false)
            (λ number. (is_small value ≡ true) × (number.value ≡ value)) }
    {
        if -(1 << 64) < value && value < 1 << 64 {
            Some(Number { value })
        } else {
            None
        }
    }
}
