ghost use Rattle.std.specs.Prelude.{◌≡◌, ◌≤◌, ◌+◌, ◌^◌, ◌<◌, ◌⊎◌, length, IfOk};
ghost use Rattle.im_num.specs.Bytes.{bytes_of};
ghost use Rattle.im_mem.specs.Memory.{little, written, is_place, view, zeroed};

use crate::memory::Memory;
use im_num::NoMemory;
use std::alloc::{AllocError, Global};
use std::marker::Model;

/// Bytes of memory.
const SIZE: u32 = 5 * 1024 * 1024;

/// All bytes of memory, side by side. A contract sees it as the list of them.
#[derive(Drop)]
pub struct FlatMem {
    bytes: Vec<u8>,
}

impl Model for FlatMem {
    ghost use Rattle.std.specs.Prelude.{◌≡◌, ℕ, List, length};
    ghost use Rattle.im_mem.specs.Map.{memory_size};

    ghost Value = { List ℕ };

    ghost view = { λ m. m.bytes.items };

    ghost invariant = { λ m. length m.bytes.items ≡ memory_size };
}

impl FlatMem {
    ghost use Rattle.std.specs.Prelude.{◌≡◌, ◌≤◌, ◌+◌, length, IfOk};
    ghost use Rattle.im_mem.specs.Map.{memory_size};
    ghost use Rattle.im_mem.specs.Memory.{view, written, zeroed, bytes_from};

    /// Memory whose bytes are all 0.
    pub fn new(alloc: Global) -> Result<FlatMem, NoMemory>
        ensures { IfOk result (λ m. view m ≡ zeroed) }
    {
        Ok(FlatMem {
            bytes: zeros(alloc, SIZE as usize)?,
        })
    }

    /// Writes bytes from an address on.
    pub fn fill(&mut self, at: u32, bytes: &[u8])
        requires { at + length bytes.now ≤ memory_size }
        ensures { view self.new ≡ written (view self.old) at bytes.now }
    {
        fill(&mut self.bytes, at as usize, bytes);
    }

    /// The `count` bytes from an address on.
    pub fn bytes_at(&self, at: u32, count: u32) -> &[u8]
        requires { at + count ≤ memory_size }
        ensures { result.now ≡ bytes_from (view self.now) at count }
    {
        let first = at as usize;
        &self.bytes[first..first + count as usize]
    }
}

fn zeros(alloc: Global, count: usize) -> Result<Vec<u8>, AllocError>
    ensures zero { IfOk result (λ bytes. view bytes.items ≡ zeroed) }
    ensures count { IfOk result (λ bytes. length bytes.items ≡ count) }
{
    vec![in alloc; 0; count]
}

fn fill(memory: &mut [u8], at: usize, bytes: &[u8])
    requires { at + length bytes.now ≤ length memory.old }
    ensures { view memory.new ≡ written (view memory.old) at bytes.now }
{
    for i in 0..bytes.len() {
        memory[at + i] = bytes[i];
    }
}

fn is_access(addr: u32, size: u32) -> bool
    ensures { result ≡ is_place addr size }
{
    (size == 1 || size == 2 || size == 4) && addr % size == 0 && addr <= SIZE - size
}

fn half_at(bytes: &[u8], at: usize) -> u32
    requires { at + 2 ≤ length bytes.now }
    ensures value { result ≡ little (view bytes.now) at 2 }
    ensures below { result < 2 ^ 16 }
{
    u32::from(bytes[at]) + 256 * u32::from(bytes[at + 1])
}

fn word_at(bytes: &[u8], at: usize) -> u32
    requires { at + 4 ≤ length bytes.now }
    ensures { result ≡ little (view bytes.now) at 4 }
{
    half_at(bytes, at) + 65536 * half_at(bytes, at + 2)
}

fn put_byte(bytes: &mut [u8], at: usize, word: u32)
    requires { at + 1 ≤ length bytes.old }
    ensures { view bytes.new ≡ written (view bytes.old) at (bytes_of 1 word) }
{
    bytes[at] = (word % 256) as u8;
}

fn put_half(bytes: &mut [u8], at: usize, word: u32)
    requires { at + 2 ≤ length bytes.old }
    ensures { view bytes.new ≡ written (view bytes.old) at (bytes_of 2 word) }
{
    bytes[at] = (word % 256) as u8;
    bytes[at + 1] = (word / 256 % 256) as u8;
}

fn put_word(bytes: &mut [u8], at: usize, word: u32)
    requires { at + 4 ≤ length bytes.old }
    ensures { view bytes.new ≡ written (view bytes.old) at (bytes_of 4 word) }
{
    put_half(bytes, at, word);
    put_half(bytes, at + 2, word / 256 / 256);
}

fn number_at(bytes: &[u8], at: usize, size: u32) -> u32
    requires room { at + size ≤ length bytes.now }
    requires size { (size ≡ 1) ⊎ (size ≡ 2) ⊎ (size ≡ 4) }
    ensures { result ≡ little (view bytes.now) at size }
{
    match size {
        1 => u32::from(bytes[at]),
        2 => half_at(bytes, at),
        _ => word_at(bytes, at),
    }
}

fn put_number(bytes: &mut [u8], at: usize, size: u32, word: u32)
    requires room { at + size ≤ length bytes.old }
    requires size { (size ≡ 1) ⊎ (size ≡ 2) ⊎ (size ≡ 4) }
    ensures { view bytes.new ≡ written (view bytes.old) at (bytes_of size word) }
{
    match size {
        1 => put_byte(bytes, at, word),
        2 => put_half(bytes, at, word),
        _ => put_word(bytes, at, word),
    }
}

impl Memory for FlatMem {
    ghost use Rattle.im_mem.specs.Memory.{view};

    ghost bytes = { λ m. view m };

    fn load(&self, addr: u32, size: u32) -> Option<u32> {
        if is_access(addr, size) {
            Some(number_at(&self.bytes, addr as usize, size))
        } else {
            None
        }
    }

    fn store(&mut self, addr: u32, size: u32, word: u32) -> bool {
        let fits = is_access(addr, size);
        if fits {
            put_number(&mut self.bytes, addr as usize, size, word);
        }
        fits
    }
}
