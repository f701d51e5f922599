ghost use Rattle.std.specs.Prelude.{◌≡◌, IfOk, length};
ghost use Rattle.im_mem.specs.Memory.{view, is_place, loaded, stored};
ghost use Rattle.im_mem_paged.specs.Pages as pages;

use crate::marks::{mark_bytes, mark_page};
use im_mem::{FlatMem, Memory};
use im_num::NoMemory;
use std::alloc::{AllocError, Global};
use std::marker::Model;

/// Bytes of a page.
pub const PAGE_SIZE: u32 = 4096;

/// Pages of memory: 5 MiB.
pub const PAGE_COUNT: u32 = 1280;

/// Memory with a mark for each page that was ever written to: a page without one is zero, so that
/// who wants the bytes that aren't 0 looks at the marked pages alone. A contract sees it as the
/// list of its bytes.
#[derive(Drop)]
pub struct PagedMem {
    flat: FlatMem,
    /// By the page's number.
    marks: Vec<bool>,
}

impl Model for PagedMem {
    ghost use Rattle.std.specs.Prelude.{◌≡◌, ℕ, List, length};
    ghost use Rattle.im_mem.specs.Memory.{view as bytes_in};
    ghost use Rattle.im_mem_paged.specs.Marks.{UnmarkedAreZero};
    ghost use Rattle.im_mem_paged.specs.Pages.{IsMemory};

    ghost Value = { List ℕ };

    ghost view = { λ m. m.flat };

    ghost invariant = { λ m. record {
      count : length m.marks.items ≡ 1280;
      zero : UnmarkedAreZero (bytes_in m.flat) m.marks.items;
      memory : IsMemory (bytes_in m.flat);
    } };
}

impl PagedMem {
    ghost use Rattle.std.specs.Prelude.{◌≡◌, ◌≤◌, ◌<◌, ◌+◌, length, false, IfOk};
    ghost use Rattle.im_mem.specs.Map.{memory_size};
    ghost use Rattle.im_mem.specs.Memory.{view, written, zeroed, bytes_from};
    ghost use Rattle.im_mem_paged.specs.Pages.{IsMemory, IsZeroPage, page_of, pages_of};

    /// Memory whose bytes are all 0. No later call takes memory.
    pub fn new(alloc: Global) -> Result<PagedMem, NoMemory>
        ensures { IfOk result (λ m. view m ≡ zeroed) }
    {
        let marks = no_marks(alloc)?;
        Ok(PagedMem {
            flat: FlatMem::new(alloc)?,
            marks,
        })
    }

    /// Writes bytes from an address on.
    pub fn fill(&mut self, at: u32, bytes: &[u8])
        requires { at + length bytes.now ≤ memory_size }
        ensures { view self.new ≡ written (view self.old) at bytes.now }
    {
        mark_bytes(&mut self.marks, at as usize, bytes.len());
        self.flat.fill(at, bytes);
    }

    /// The `count` bytes from an address on.
    pub fn bytes_at(&self, at: u32, count: u32) -> &[u8]
        requires { at + count ≤ memory_size }
        ensures { result.now ≡ bytes_from (view self.now) at count }
    {
        self.flat.bytes_at(at, count)
    }

    /// The bytes of a page.
    pub fn page(&self, page: u32) -> &[u8]
        requires { page < 1280 }
        ensures { result.now ≡ page_of (view self.now) page }
    {
        self.flat.bytes_at(PAGE_SIZE * page, PAGE_SIZE)
    }

    /// A page that isn't marked is zero.
    pub fn is_marked(&self, page: u32) -> bool
        requires { page < 1280 }
        ensures { result ≡ false → IsZeroPage (view self.now) page }
    {
        self.marks[page as usize]
    }

    /// Each byte of the page is 0. Of a page without a mark no byte is looked at.
    fn is_zero_page(&self, page: u32) -> bool
        requires { page < 1280 }
        ensures { result ≡ pages.are_zero (page_of (view self.now) page) }
    {
        !self.is_marked(page) || are_zero(self.page(page))
    }

    /// The numbers of the pages that aren't zero, which rise.
    pub fn nonzero_pages(&self, alloc: Global) -> Result<Vec<u32>, NoMemory>
        ensures pages { IfOk result (λ pages. pages.items ≡ pages_of 1280 0 (view self.now)) }
        ensures memory { IsMemory (view self.now) }
    {
        let marks = &self.marks;
        let mut pages = Vec::new(alloc);
        for page in 0..marks.len() as u32 {
            if !self.is_zero_page(page) {
                pages.push(page)?;
            }
        }
        Ok(pages)
    }
}

/// Each byte is 0.
pub fn are_zero(bytes: &[u8]) -> bool
    ensures { result ≡ pages.are_zero bytes.now }
{
    bytes.iter().all(|byte| *byte == 0)
}

fn no_marks(alloc: Global) -> Result<Vec<bool>, AllocError>
    ensures { IfOk result (λ marks. length marks.items ≡ 1280) }
{
    vec![in alloc; false; 1280]
}

// The number at an address. Each size has a call of its own, in which no size is left to divide by.
fn get(flat: &FlatMem, addr: u32, size: u32) -> Option<u32>
    ensures { result ≡ loaded (view flat.now) addr size }
{
    match size {
        1 => flat.load(addr, 1),
        2 => flat.load(addr, 2),
        4 => flat.load(addr, 4),
        _ => None,
    }
}

// Writes a number at an address, in the same way.
fn put(flat: &mut FlatMem, addr: u32, size: u32, word: u32) -> bool
    ensures took { result ≡ is_place addr size }
    ensures bytes { view flat.new ≡ stored (view flat.old) addr size word }
{
    match size {
        1 => flat.store(addr, 1, word),
        2 => flat.store(addr, 2, word),
        4 => flat.store(addr, 4, word),
        _ => false,
    }
}

impl Memory for PagedMem {
    ghost use Rattle.im_mem.specs.Memory.{view};

    ghost bytes = { λ m. view m };

    fn load(&self, addr: u32, size: u32) -> Option<u32> {
        get(&self.flat, addr, size)
    }

    fn store(&mut self, addr: u32, size: u32, word: u32) -> bool {
        let took = put(&mut self.flat, addr, size, word);
        if took {
            mark_page(&mut self.marks, addr);
        }
        took
    }
}
