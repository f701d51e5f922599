ghost use Rattle.std.specs.Prelude.{◌≡◌, ◌+◌, ◌≤◌, length, None, IfOk, OnOk, IfErr};
ghost use Rattle.im_mem.specs.Memory.{view};
ghost use Rattle.im_image.specs.Faults.{word_at as word_of};
ghost use Rattle.im_mem_file.specs.Faults.{first_unmet, page_requirements, pages_requirements};
ghost use Rattle.im_mem_file.specs.Faults.{page_bytes, page_laid, pages_laid, IsFaultOf};

use crate::fault::MemoryFault;
use crate::words::{check, short, word_at};
use im_mem_paged::{PAGE_COUNT, PAGE_SIZE, PagedMem, are_zero};

/// The bytes of the page whose number stands at a place, and then so many bytes.
fn bytes_of_page(bytes: &[u8], place: usize) -> &[u8]
    requires { place + 4100 ≤ length bytes.now }
    ensures bytes { result.now ≡ page_bytes bytes.now place }
    ensures length { length result.now ≡ 4096 }
{
    &bytes[place + 4..place + 4 + PAGE_SIZE as usize]
}

/// Reads the page at a place, whose number is to be no lower than `least`, and answers its number.
#[tactic(auto, unfolding(crate::specs::Faults::page_requirements))]
fn read_page(
    memory: &mut PagedMem,
    bytes: &[u8],
    least: u32,
    place: usize,
) -> Result<u32, MemoryFault>
    requires { place ≤ length bytes.now }
    ensures number { IfOk result (λ number. number ≡ word_of bytes.now place) }
    ensures below { IfOk result (λ number. number + 1 ≤ 1280) }
    ensures laid { OnOk result (view memory.new ≡ page_laid (view memory.old) bytes.now place) }
    ensures there { OnOk result (place + 4100 ≤ length bytes.now) }
    ensures right { OnOk result (first_unmet (page_requirements bytes.now least place) ≡ None) }
    ensures wrong { IfErr result
        (λ fault. IsFaultOf fault (first_unmet (page_requirements bytes.now least place))) }
{
    let number = word_at(bytes, place)?;
    check(
        least <= number && number < PAGE_COUNT,
        MemoryFault::BadPage(number),
    )?;
    if bytes.len() - place < 4 + PAGE_SIZE as usize {
        return Err(short(bytes));
    }
    let page = bytes_of_page(bytes, place);
    check(!are_zero(page), MemoryFault::BadPage(number))?;
    memory.fill(PAGE_SIZE * number, page);
    Ok(number)
}

/// Reads so many pages from a place on, behind which nothing is to stand.
pub fn read_pages(
    memory: &mut PagedMem,
    bytes: &[u8],
    count: u32,
    place: usize,
) -> Result<(), MemoryFault>
    requires { place ≤ length bytes.now }
    ensures laid { OnOk result (view memory.new
        ≡ pages_laid (view memory.old) bytes.now count place) }
    ensures right { OnOk result (first_unmet (pages_requirements bytes.now count 0 place) ≡ None) }
    ensures wrong { IfErr result
        (λ fault. IsFaultOf fault (first_unmet (pages_requirements bytes.now count 0 place))) }
{
    let mut at = place;
    let mut least = 0;
    for _ in 0..count {
        least = read_page(memory, bytes, least, at)? + 1;
        at += 4 + PAGE_SIZE as usize;
    }
    if at < bytes.len() {
        return Err(MemoryFault::Trailing(at as u64));
    }
    Ok(())
}
