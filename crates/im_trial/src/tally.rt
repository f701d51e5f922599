ghost use Rattle.std.specs.Prelude.{◌≡◌, IfOk, string_bytes};
ghost use Rattle.im_trial.specs.Judging.{counted, counts_of, none_counted, passes, told_of};

use crate::case::Case;
use crate::row::Row;
use crate::stop::Stop;
use std::alloc::{AllocError, Global};

/// How many cases found what they should, and how many didn't.
#[derive(Clone, Copy, Debug, PartialEq)]
pub struct Tally {
    pub passed: u32,
    pub failed: u32,
}

// The line that tells whether a case found what its row wants.
fn told(alloc: Global, row: &Row<'_>, case: &Case) -> Result<String, AllocError>
    ensures { IfOk result (λ text. string_bytes text ≡ told_of row.now case.now) }
{
    let (kind, name) = (row.kind(), row.name());
    let (found, wanted) = (case.found(), row.wanted());
    if found == wanted {
        format!(in alloc; "passed {kind} {name}")
    } else {
        format!(in alloc; "FAILED {kind} {name}: found {found}, wanted {wanted}")
    }
}

// The line that tells how many cases passed, and how many failed.
fn counts_text(alloc: Global, tally: Tally) -> Result<String, AllocError>
    ensures { IfOk result (λ text. string_bytes text ≡ counts_of tally) }
{
    let (passed, failed) = (tally.passed, tally.failed);
    format!(in alloc; "{passed} passed, {failed} failed")
}

impl Tally {
    /// Of no case.
    pub fn new() -> Tally
        ensures { result ≡ none_counted }
    {
        Tally {
            passed: 0,
            failed: 0,
        }
    }

    fn count(&mut self, row: &Row<'_>, case: &Case)
        ensures { self.new ≡ counted (passes row.now case.now) self.old }
    {
        if case.found() == row.wanted() {
            self.passed = self.passed.saturating_add(1);
        } else {
            self.failed = self.failed.saturating_add(1);
        }
    }

    /// Counts a case, and prints whether it found what its row wants.
    pub fn judge(&mut self, rt: &HostRuntime, row: &Row<'_>, case: &Case) -> Result<(), Stop>
        ensures { self.new ≡ counted (passes row.now case.now) self.old }
    {
        self.count(row, case);
        let text = told(rt.alloc(), row, case)?;
        println!(rt; "{text}")?;
        Ok(())
    }

    /// Prints the counts.
    pub fn finish(&self, rt: &HostRuntime) -> Result<(), Stop> {
        let text = counts_text(rt.alloc(), *self)?;
        println!(rt; "{text}")?;
        Ok(())
    }
}
