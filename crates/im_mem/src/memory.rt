ghost use Rattle.std.specs.Prelude.{◌≡◌, ℕ};
ghost use Rattle.im_mem.specs.Memory.{loaded, stored, is_place};

/// A byte for each address below 5 MiB, however it is kept.
pub trait Memory {
    /// The byte at each address.
    ghost bytes: { Self → ℕ → ℕ };

    /// The number that `size` bytes from `addr` make, the lowest first; none where `size` isn't 1,
    /// 2 or 4, `addr` isn't a multiple of it, or the range leaves memory.
    fn load(&self, addr: u32, size: u32) -> Option<u32>
        ensures { result ≡ loaded (bytes self.now) addr size };

    /// Writes the lowest `size` bytes of `word` from `addr` on, the lowest first. Where `load` has
    /// no answer it writes nothing and answers false.
    fn store(&mut self, addr: u32, size: u32, word: u32) -> bool
        ensures took { result ≡ is_place addr size }
        ensures bytes { bytes self.new ≡ stored (bytes self.old) addr size word };
}
