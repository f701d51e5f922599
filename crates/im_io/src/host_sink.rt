use crate::fault::Failed;
use crate::sink::Sink;
use std::io::Write;

/// A stream of the host's. It tells nothing of the bytes that it takes. Each write is flushed.
#[derive(Drop)]
pub struct HostSink<W> {
    stream: W,
    faults: u64,
}

impl<W: Write> HostSink<W> {
    ghost use Rattle.std.specs.Prelude.{◌≡◌, None};
    ghost use Rattle.im_io.specs.Counts.{one_more};

    pub fn new(stream: W) -> HostSink<W>
        ensures { ⟦<HostSink<W> as Sink>⟧.state result ≡ record { contents = None; faults = 0 } }
    {
        HostSink { stream, faults: 0 }
    }

    fn fault(&mut self) -> Failed
        ensures stream { self.new.stream ≡ self.old.stream }
        ensures faults { self.new.faults ≡ one_more self.old.faults }
    {
        self.faults = self.faults.saturating_add(1);
        Failed
    }
}

impl<W: Write> Sink for HostSink<W> {
    ghost use Rattle.std.specs.Prelude.{None};

    ghost state = { λ s. record { contents = None; faults = s.faults } };

    fn write(&mut self, bytes: &[u8]) -> Result<usize, Failed> {
        let taken = match self.stream.write(bytes) {
            Ok(0) if !bytes.is_empty() => return Err(self.fault()),
            Ok(count) => count,
            Err(_) => return Err(self.fault()),
        };
        match self.stream.flush() {
            Ok(()) => Ok(taken),
            Err(_) => Err(self.fault()),
        }
    }
}
