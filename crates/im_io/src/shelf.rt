use crate::fault::{Failed, OpenFault};

/// Files, one open at a time.
pub trait Shelf {
    ghost use Rattle.std.specs.Prelude.{◌≡◌};
    ghost use Rattle.im_io.specs.Shelf.{ShelfState, Mode, WhereTold, OpenCounts, mode_opened};
    ghost use Rattle.im_io.specs.Shelf.{Opens, ReadCounts, Reads, WriteCounts, mode_created};
    ghost use Rattle.im_io.specs.Shelf.{Creates, Writes, Fits, TakesSome, Reading, Writing};

    /// What the shelf tells, and its counts.
    ghost state: { Self → ShelfState };

    /// Opens a file to read it from its start.
    fn open_file(&mut self, name: &str) -> Result<(), OpenFault>
        ensures counts { OpenCounts result (state self.old) (state self.new) }
        ensures mode { (state self.new).mode ≡ mode_opened result }
        ensures told { WhereTold (state self.old).told (state self.new).told
            (Opens name.now result) };

    /// Reads the next bytes of the open file; 0 into a buffer that isn't empty is its end.
    fn read(&mut self, buffer: &mut [u8]) -> Result<usize, Failed>
        requires { (state self.old).mode ≡ Reading }
        ensures counts { ReadCounts result (state self.old) (state self.new) }
        ensures mode { (state self.new).mode ≡ Reading }
        ensures fits { Fits buffer.old result }
        ensures told { WhereTold (state self.old).told (state self.new).told
            (Reads buffer.old buffer.new result) };

    /// Opens a file to write it, empty, in the place of one of that name.
    fn create_file(&mut self, name: &str) -> Result<(), Failed>
        ensures counts { WriteCounts result (state self.old) (state self.new) }
        ensures mode { (state self.new).mode ≡ mode_created result }
        ensures told { WhereTold (state self.old).told (state self.new).told
            (Creates name.now result) };

    /// Writes the first bytes of a piece to the end of the open file.
    fn write(&mut self, bytes: &[u8]) -> Result<usize, Failed>
        requires { (state self.old).mode ≡ Writing }
        ensures counts { WriteCounts result (state self.old) (state self.new) }
        ensures mode { (state self.new).mode ≡ Writing }
        ensures fits { Fits bytes.now result }
        ensures some { TakesSome bytes.now result }
        ensures told { WhereTold (state self.old).told (state self.new).told
            (Writes bytes.now result) };
}
