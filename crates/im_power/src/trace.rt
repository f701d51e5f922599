ghost use Rattle.std.specs.Prelude.{◌≡◌};

use crate::period::Period;
use std::marker::Model;

/// Periods in order.
#[derive(Debug, Drop)]
pub struct Trace {
    periods: Vec<Period>,
}

impl Model for Trace {
    ghost use Rattle.std.specs.Prelude.{List};
    ghost use Rattle.im_power.specs.declared.period.Period.{Period};

    ghost Value = { List Period };

    ghost view = { λ trace. trace.periods.items };
}

impl Trace {
    pub fn new(periods: Vec<Period>) -> Trace
        ensures { result ≡ periods.items }
    {
        Trace { periods }
    }

    pub fn as_slice(&self) -> &[Period]
        ensures { result.now ≡ self.now }
    {
        self.periods.as_slice()
    }

    pub fn into_vec(self) -> Vec<Period>
        ensures { result.items ≡ self }
    {
        self.periods
    }
}
