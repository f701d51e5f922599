ghost use Rattle.std.specs.Prelude.{◌≡◌};
ghost use Rattle.std.specs.Option.{ok_or};
ghost use Rattle.im_trial.specs.Numbers.{integer_in, word_in};

use crate::stop::Stop;

/// A number of decimal digits, maybe with a sign.
pub(crate) fn number_of(text: &str) -> Result<i64, Stop>
    ensures { result ≡ ok_or (integer_in text.now) Stop.Row }
{
    match text.parse::<i64>() {
        Ok(number) => Ok(number),
        Err(_) => Err(Stop::Row),
    }
}

/// A number of 32 bits, of decimal digits.
pub(crate) fn small_of(text: &str) -> Result<u32, Stop>
    ensures { result ≡ ok_or (word_in 10 text.now) Stop.Row }
{
    match text.parse::<u32>() {
        Ok(number) => Ok(number),
        Err(_) => Err(Stop::Row),
    }
}

/// A word of 32 bits, of hexadecimal digits.
pub(crate) fn word_of(text: &str) -> Result<u32, Stop>
    ensures { result ≡ ok_or (word_in 16 text.now) Stop.Row }
{
    match u32::from_str_radix(text, 16) {
        Ok(word) => Ok(word),
        Err(_) => Err(Stop::Row),
    }
}
