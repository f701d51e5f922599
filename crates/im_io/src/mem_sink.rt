ghost use Rattle.std.specs.Prelude.{◌≡◌, [], Some, IfOk};
ghost use Rattle.im_io.specs.MemSinks.{MemorySink};

use crate::calls::Calls;
use crate::fault::Failed;
use crate::room::{append, nothing_fits};
use crate::sink::Sink;
use im_num::NoMemory;
use std::alloc::Global;
use std::marker::Model;

/// A sink that keeps the bytes that it takes, as many as it has room for. It refuses the writes
/// that it is told to refuse, and those of a piece for which no room is left.
#[derive(Drop)]
pub struct MemSink {
    bytes: Vec<u8>,
    calls: Calls,
    faults: u64,
}

impl Model for MemSink {
    ghost use Rattle.std.specs.Prelude.{vec_capacity};
    ghost use Rattle.im_io.specs.MemSinks.{MemorySink};

    ghost Value = { MemorySink };

    ghost view = { λ s. record {
      contents = s.bytes.items;
      room = vec_capacity s.bytes;
      made =
          s.calls.made;
      failing = s.calls.failing.items;
      faults = s.faults;
    } };
}

impl MemSink {
    /// A sink with room for so many bytes. `failing` has the numbers of the writes to be refused;
    /// the first write's number is 1.
    pub fn new(alloc: Global, room: usize, failing: &[u64]) -> Result<MemSink, NoMemory>
        ensures state { IfOk result (λ sink. ⟦<MemSink as Sink>⟧.state sink
            ≡ record { contents = Some []; faults = 0 }) }
        ensures value { IfOk result (λ sink. sink
            ≡ record { contents = []; room = room; made = 0; failing = failing.now; faults = 0 }) }
    {
        Ok(MemSink {
            bytes: Vec::with_capacity(alloc, room)?,
            calls: Calls::new(alloc, failing)?,
            faults: 0,
        })
    }

    /// The bytes taken so far.
    pub fn contents(&self) -> &[u8]
        ensures { (⟦<MemSink as Sink>⟧.state self.now).contents ≡ Some result.now }
    {
        &self.bytes
    }

    /// How many writes were refused.
    pub fn faults(&self) -> u64
        ensures { result ≡ (⟦<MemSink as Sink>⟧.state self.now).faults }
    {
        self.faults
    }
}

impl Sink for MemSink {
    ghost use Rattle.std.specs.Prelude.{◌≡◌, ◌↔◌, IfOk, IsErr, length, min};
    ghost use Rattle.im_io.specs.Shelf.{Fits, TakesSome};
    ghost use Rattle.im_io.specs.Sink.{Takes};
    ghost use Rattle.im_io.specs.MemSinks.{state_of, left, IsRefused, after_write};

    ghost state = { state_of };

    fn write(&mut self, bytes: &[u8]) -> Result<usize, Failed>
        ensures fits { Fits bytes.now result }
        ensures some { TakesSome bytes.now result }
        ensures takes { Takes bytes.now result (state_of self.old) (state_of self.new) }
        ensures refused { IsErr result ↔ IsRefused bytes.now self.old }
        ensures count { IfOk result (λ count. count ≡ min (length bytes.now) (left self.old)) }
        ensures sink { self.new ≡ after_write bytes.now result self.old }
    {
        let room = self.bytes.capacity() - self.bytes.len();
        if self.calls.is_refused() || nothing_fits(bytes, room) {
            self.faults = self.faults.saturating_add(1);
            return Err(Failed);
        }
        let count = bytes.len().min(room);
        append(&mut self.bytes, &bytes[..count]);
        Ok(count)
    }
}
