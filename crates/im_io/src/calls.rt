ghost use Rattle.std.specs.Prelude.{◌≡◌, ◌↔◌, IsTrue, IfOk};
ghost use Rattle.im_io.specs.Counts.{one_more, NextFails};

use im_num::NoMemory;
use std::alloc::Global;

/// How many calls were made, and which are to be refused.
#[derive(Drop)]
pub(crate) struct Calls {
    made: u64,
    failing: Vec<u64>,
}

impl Calls {
    pub(crate) fn new(alloc: Global, failing: &[u64]) -> Result<Calls, NoMemory>
        ensures { IfOk result (λ calls. (calls.failing.items ≡ failing.now) × (calls.made ≡ 0)) }
    {
        Ok(Calls {
            made: 0,
            failing: Vec::from_slice(alloc, failing)?,
        })
    }

    /// Counts a call, and says whether it is one to be refused. The first call's number is 1.
    pub(crate) fn is_refused(&mut self) -> bool
        ensures failing { self.new.failing.items ≡ self.old.failing.items }
        ensures made { self.new.made ≡ one_more self.old.made }
        ensures refused { IsTrue result ↔ NextFails self.old.failing.items self.old.made }
    {
        self.made = self.made.saturating_add(1);
        self.failing.contains(&self.made)
    }
}
