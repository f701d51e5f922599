ghost use Rattle.std.specs.Prelude.{◌≡◌, ◌+◌, ◌-◌, ◌≤◌, length, IfOk};
ghost use Rattle.im_link.specs.Code.{IsLinkable};
ghost use Rattle.im_trial_machine.specs.Numbered.{AreNumbered};

use crate::lines::line_at;
use im_rv::{Line, Part};
use im_trial::Stop;
use std::alloc::{AllocError, Global};

// The lines from the number `first` on, up to `end`.
fn lines_between(alloc: Global, first: u32, end: u32) -> Result<Vec<Line>, AllocError>
    requires order { first ≤ end }
    requires inside { end ≤ 261120 }
    ensures numbered { IfOk result (λ lines. AreNumbered first lines.items) }
    ensures count { IfOk result (λ lines. length lines.items ≡ end - first) }
{
    let mut lines = Vec::new(alloc);
    for i in first..end {
        lines.push(line_at(i))?;
    }
    Ok(lines)
}

/// The routine and one part of 32639 functions: 261120 lines.
pub fn largest_parts(alloc: Global) -> Result<Vec<Part>, Stop>
    ensures { IfOk result (λ parts. IsLinkable parts.items) }
{
    let mut parts = Vec::new(alloc);
    parts.push(Part {
        name: String::from_str(alloc, "routine")?,
        lines: lines_between(alloc, 0, 8)?,
    })?;
    parts.push(Part {
        name: String::from_str(alloc, "functions")?,
        lines: lines_between(alloc, 8, 261120)?,
    })?;
    Ok(parts)
}
