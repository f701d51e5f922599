use crate::fault::Failed;

/// A stream of bytes that are taken one after the other.
pub trait Sink {
    ghost use Rattle.im_io.specs.Shelf.{Fits, TakesSome};
    ghost use Rattle.im_io.specs.Sink.{SinkState, Takes};

    /// What the sink tells, and its count.
    ghost state: { Self → SinkState };

    /// Takes the first bytes of a piece.
    fn write(&mut self, bytes: &[u8]) -> Result<usize, Failed>
        ensures fits { Fits bytes.now result }
        ensures some { TakesSome bytes.now result }
        ensures takes { Takes bytes.now result (state self.old) (state self.new) };
}
